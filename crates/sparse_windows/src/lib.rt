//! Whole blocks of an image: read from its file, and written as chunks of a sparse file.
#![tactic(auto)]

mod blocks;
mod reading;

pub use blocks::put_window;
pub use reading::read_window;
