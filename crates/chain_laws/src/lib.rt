//! Laws of copies that are stopped and gone on with: what holds of every pair of images that a stop in a chain of runs may
//! leave, and of the target where a run of the chain is done.
#![tactic(auto)]

mod laws;

pub use laws::{chains_keep_since, done_chains_are_copied, first_starts_have_since};
