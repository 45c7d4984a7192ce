//! Names, kinds and counts of the sections of a configuration: which images are built, which of
//! their partitions count, and what is refused because of them.
#![tactic(auto)]

mod checking;
mod clashes;
mod counts;
mod fault;
mod images;
mod laws;
mod names;

pub use checking::check_sections;
pub use clashes::clash;
pub use fault::GraphFault;
pub use images::{counted_parts, is_built, only_kind};
pub use laws::clashes_are_first;
pub use names::Names;
