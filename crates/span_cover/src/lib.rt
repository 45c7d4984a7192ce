//! A set of offsets as sorted disjoint spans: what a layout fills, and the blocks that it touches.
#![tactic(auto)]

mod blocks;
mod cover;
mod places;

pub use cover::Cover;
