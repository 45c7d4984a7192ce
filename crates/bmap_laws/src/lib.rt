//! Laws of block maps that are written and read: the text that is written for a map is a document of that map, so it
//! is read as that map again.
#![tactic(auto)]

mod laws;
mod returning;

pub use laws::written_maps_are_read;
pub use returning::read_back;
