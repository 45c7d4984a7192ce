//! The master boot record that stands beside a GUID partition table in a hybrid image.
#![tactic(auto)]

mod hybrid;
mod laws;

pub use hybrid::hybrid_bytes;
pub use laws::hybrid_reads_back;
