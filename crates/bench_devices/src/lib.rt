//! The two devices of a copy, in memory and as real files.
#![tactic(auto)]

mod faults;
mod gate;
mod host_bench;
mod mem_bench;
mod mounts;
mod opening;
mod record;

pub use host_bench::HostBench;
pub use mem_bench::MemBench;
pub use mounts::lists;
