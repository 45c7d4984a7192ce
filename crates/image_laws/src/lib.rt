//! Laws of an image that is built, mapped, and copied to a target: its map is read as it was written, and the target has
//! what was built.
#![tactic(auto)]

mod laws;

pub use laws::{images_are_on_the_target, mapped_texts_are_the_map};
