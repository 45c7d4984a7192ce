//! An image that is being made: bytes that are put into its file, where the byte at each offset is wanted.
#![tactic(auto)]

mod writes;

pub use writes::{make_image, put_bytes};
