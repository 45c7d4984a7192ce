//! The text of a block map, as bmap 2.0 spells it.
#![tactic(auto)]

mod parts;
mod writing;

pub use writing::write_bmap;
