//! Whether a target has what a block map says of it: its ranges' digests are compared with the target's bytes.
#![tactic(auto)]

mod digests;
mod faults;
mod verifying;

pub use faults::VerifyFault;
pub use verifying::verify;
