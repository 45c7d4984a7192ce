//! Steps of a scenario on partition tables, sparse files, sums and a pool of buffers.
#![tactic(auto)]

mod pool_steps;
mod slot_steps;
mod sparse_steps;
mod table_steps;
mod value_steps;

pub use pool_steps::PoolStep;
pub use slot_steps::SlotStep;
pub use sparse_steps::SparseStep;
pub use table_steps::TableStep;
pub use value_steps::ValueStep;
