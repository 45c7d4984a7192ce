//! The boot records of the logical partitions in an extended partition.
#![tactic(auto)]

mod chain;
mod extended;
mod laws;

pub use chain::{LogicalSpec, record_bytes};
pub use extended::extended_entry;
pub use laws::{chain_reads_back, extended_reads_back};
