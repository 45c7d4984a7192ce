//! Where a copier stands: the marks that it keeps, its present unit, its open window, and what it has hashed. No call
//! here is on a device.
#![tactic(auto)]

mod courses;
mod jobs;
mod window;

pub use copy_opening::Mode;
pub use courses::Course;
pub use jobs::{CopyJob, Need};
pub use window::Window;
