//! Writes Android sparse images: the blocks of an image as chunks, read and written through one leased buffer. It takes
//! no memory.
#![tactic(auto)]

mod steps;
mod writing;

pub use writing::write_sparse;
