//! What the sparse file of an image is: its chunks, and their bytes. Definitions and laws; no work is done here.
#![tactic(auto)]

mod laws;
mod runs;

pub use laws::{one_sparse_text, runs_expand};
pub use runs::{Content, Run};
