//! A whole run of a copier: it is opened, takes its steps to the end or to its refusal, and is closed.
#![tactic(auto)]

mod running;

pub use running::{Tally, copy_all};
