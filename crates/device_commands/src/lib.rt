//! The commands on devices: `copy` and `resume`, `forget`, and `verify`.
#![tactic(auto)]

mod copy_arm;
mod forget_arm;
mod names;
mod verify_arm;

pub use copy_arm::run_copy;
pub use forget_arm::run_forget;
pub use names::DeviceNames;
pub use verify_arm::run_verify;
