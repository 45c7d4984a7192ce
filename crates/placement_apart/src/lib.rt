//! What holds of every layout that a disk image or a plain image is given: its partitions and its tables lie apart and within it.
#![tactic(auto)]

mod laws;

pub use laws::placed_lies_apart;
