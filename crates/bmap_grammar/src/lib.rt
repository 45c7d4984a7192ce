//! The items of a bmap 2.0 document, what stands in one, and why a text is none.
#![tactic(auto)]

mod faults;
mod items;
mod stood;

pub use faults::MapFault;
pub use items::{Field, Head, Held, Item, Piece};
pub use stood::{Stage, Stood, Sum, Told};
