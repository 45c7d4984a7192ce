//! Steps of a scenario on the texts of block maps.
#![tactic(auto)]

mod many_ranges;
mod map_steps;

pub use map_steps::MapStep;
