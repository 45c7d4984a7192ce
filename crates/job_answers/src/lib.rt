//! What a command answers: how an answer stands to what was wanted, and the printing of its line.
#![tactic(auto)]

mod printing;

pub use printing::{refuse, reported};
