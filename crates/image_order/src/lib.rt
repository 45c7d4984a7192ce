//! The order of images of which some are made of others: each behind its children, or the first
//! from which a chain of children leads back to it.
//!
//! Images are numbers from 0 on. The children of each stand in a list of their own, in the order
//! in which they are to be placed.
#![tactic(auto)]

mod cycles;
mod laws;
mod making;
mod ordering;
mod sets;

pub use laws::{cycles_are_chains, images_stand_in_order};
pub use making::{OrderFault, build_order};
