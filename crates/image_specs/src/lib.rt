//! What each image that is built is made of: its full name, its keys, its flash device, and the
//! files and images that its bytes come from.
#![tactic(auto)]

mod copies;
mod sources;
mod specs;

pub use sources::specs_of;
pub use specs::{ImageSpec, Source};
