//! Laws of the runs of a copy: what `copy` and `resume` keep makes them runs of a chain, so an image that was built, mapped
//! and copied is on the target.
#![tactic(auto)]

mod laws;

pub use laws::{copied_images_are_on_the_target, copies_are_of_chains};
