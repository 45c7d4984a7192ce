//! Which images of a configuration are built, from which images and files, and in which order.
#![tactic(auto)]

mod children;
mod clashes;
mod images;
mod making;

pub use image_names::{GraphFault, clashes_are_first};
pub use image_order::{cycles_are_chains, images_stand_in_order};
pub use image_specs::{ImageSpec, Source};
pub use images::Graph;
pub use making::graph;
