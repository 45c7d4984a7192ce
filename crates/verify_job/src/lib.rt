//! The work of verifying: a target is compared with the map that a file has.
#![tactic(auto)]

mod faults;
mod targets;
mod verifying;

pub use faults::VerifyJobFault;
pub use verifying::verify_target;
