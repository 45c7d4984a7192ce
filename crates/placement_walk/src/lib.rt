//! Puts the partitions of a disk image into their places, one after another, up to the first that can't stand.
#![tactic(auto)]

mod faults;
mod holding;
mod walking;

pub use faults::{StepFault, WalkFault};
pub use walking::walk;
