//! A copy in steps, which may be stopped within any of them and resumed: each unit of the image is written to the
//! target and recorded on the journal, each range is compared with its digest.
#![tactic(auto)]

mod copiers;
mod faults;
mod keeping;
mod opening;
mod putting;
mod reading;
mod stepping;
mod steps;

pub use copier_course::{CopyJob, Mode, Need};
pub use copiers::Copier;
pub use faults::CopyFault;
pub use steps::Step;
