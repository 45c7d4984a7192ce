//! How many units a run of a copier has written and kept: what each step adds, and what the whole run has.
#![tactic(auto)]

mod laws;

pub use laws::{runs_are_tallied, tallies_are_one, units_are_mapped};
