//! Where files stand: their full names under a path.
#![tactic(auto)]

mod names;

pub use names::full_name;
