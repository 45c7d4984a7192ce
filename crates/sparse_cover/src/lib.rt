//! The blocks of an image that a sparse file has to hold, in stretches: those with a covered offset, and those without.
#![tactic(auto)]

mod stretches;

pub use stretches::{Stretch, stretch_from};
