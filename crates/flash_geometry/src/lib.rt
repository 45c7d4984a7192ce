//! Places the partitions of an image for a flash device on its erase blocks.
#![tactic(auto)]

mod faults;
mod flash;
mod geometry;
mod layouts;
mod places;
mod taken;

pub use flash::place_flash;
pub use geometry::Geometry;
pub use placement_rules::PlaceFault;
