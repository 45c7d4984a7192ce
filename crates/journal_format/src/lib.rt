//! The format of a copy's journal: the job that it was opened for, its gate, its window, and its marks.
#![tactic(auto)]

mod header;
mod jobs;

pub use header::{GATE, GATE_OPEN, HEADER_LEN, Held, MAGIC, MARKS, RECORDED, body_of, held_in};
pub use jobs::JobId;
