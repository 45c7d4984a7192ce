//! Block maps of images that are built: the blocks of an image's file that hold what its layout names, with their digests,
//! as a file of bmap 2.0.
#![tactic(auto)]

mod choosing;
mod digesting;
mod faults;
mod mapping;
mod measuring;
mod writing;

pub use faults::MappingFault;
pub use mapping::{Mapped, map_image};
