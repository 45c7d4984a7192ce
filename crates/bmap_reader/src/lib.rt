//! Reading a bmap 2.0 document: the block map of a text, or the first reason why it has none.
#![tactic(auto)]

mod counting;
mod items;
mod ranges;
mod reading;
mod standing;

pub use reading::read_bmap;
