//! A pool of equal buffers: one block of memory, taken once, whose buffers are lent and given back by leases.
#![tactic(auto)]

mod block;
mod memory;
mod pool;

pub use pool::{Lease, Pool};
