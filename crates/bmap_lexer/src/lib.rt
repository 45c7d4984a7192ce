//! The item at the front of a bmap 2.0 document's text.
#![tactic(auto)]

mod elements;
mod marks;
mod pieces;
mod tags;
mod values;

pub use pieces::first_piece;
