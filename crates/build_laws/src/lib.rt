//! Laws of a build of several images, each of which may be made of the files of others.
#![tactic(auto)]

mod laws;

pub use laws::{built_afterwards, graphs_are_built, no_image_is_left_out, plans_are_served};
