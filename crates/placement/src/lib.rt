//! Places the partitions and the tables of disk images and plain images.
#![tactic(auto)]

mod entries;
mod extended;
mod naming;
mod parts;
mod placing;
mod refusing;
mod tables;

pub use placement_rules::{Meeting, PartFault, PlaceFault};
pub use placing::place;
