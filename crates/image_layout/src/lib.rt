//! Where everything of an image stands: its partitions, its tables, and which byte each offset has.
#![tactic(auto)]

mod covering;
mod laws;
mod layout;

pub use laws::layout_reads_back;
pub use layout::{Layout, Placed};
