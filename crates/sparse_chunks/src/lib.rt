//! The chunks of a sparse file, put behind one another: what a block is, and the bytes of a chunk's header and of the file's.
#![tactic(auto)]

mod contents;
mod heads;
mod progress;

pub use contents::first_run;
pub use heads::{HEADER_LEN, TAG_LEN, header_bytes, tag_bytes};
pub use progress::{Placed, Progress, put_run};
