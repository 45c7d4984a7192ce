//! The stages of a copier on its two devices: a unit is written, a window of units is recorded, a range is recorded
//! as checked, the units of a range are taken back. Each says what it keeps of every pair of images that a stop may
//! leave.
#![tactic(auto)]

mod faults;
mod stages;

pub use faults::DeviceFault;
pub use stages::{check_range, clear_units, close_window, write_unit};
