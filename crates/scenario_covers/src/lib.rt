//! Steps of a scenario on a cover, on the map that is made of it, and on the map's units.
#![tactic(auto)]

mod cover_steps;
mod ranges;

pub use cover_steps::{CoverStep, RangeDigest};
