//! The opening of a copy on its two devices: the target is settled, and the journal is opened, anew or again.
#![tactic(auto)]

mod faults;
mod opening;

pub use faults::OpenFault;
pub use opening::{Mode, open_copy};
