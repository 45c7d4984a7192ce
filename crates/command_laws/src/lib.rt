//! Laws of the commands as a whole, over the words of their contracts: a copy that can be done is done.
#![tactic(auto)]

mod laws;

pub use laws::{copies_complete, said_jobs_are_jobs};
