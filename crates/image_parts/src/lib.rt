//! The bytes of the partitions of an image: each partition's file, without its holes, in its place.
#![tactic(auto)]

mod putting;

pub use putting::put_parts;
