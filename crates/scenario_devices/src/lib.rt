//! Steps of a scenario on a bench of two devices in memory.
#![tactic(auto)]

mod bench_steps;
mod device_steps;
mod devices;

pub use bench_steps::{BenchStep, Kept, keep_of};
pub use device_steps::DeviceStep;
pub use devices::{Devices, device_of};
