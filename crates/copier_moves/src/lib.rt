//! The moves of a copier: it puts a unit, passes one that is recorded, and ends a range. Each says what it keeps of
//! every pair of images that a stop may leave, and that the copier fits its devices again.
#![tactic(auto)]

mod faults;
mod keeping;
mod putting;

pub use copy_stages::DeviceFault;
pub use faults::EndFault;
pub use keeping::{end_range, keep_unit};
pub use putting::put_unit;
