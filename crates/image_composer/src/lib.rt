//! Images that are composed: the file of a layout is made, and filled with the bytes of its partitions' files and of
//! its tables, through one buffer of a pool.
#![tactic(auto)]

mod composing;

pub use composing::compose;
