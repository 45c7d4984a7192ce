//! Images that are built: each is placed by its sources' files as they are, and its file is put in place of what stood
//! there.
#![tactic(auto)]

mod all;
mod covers;
mod each;
mod faults;
mod kinds;
mod laying;
mod measures;
mod one;
mod sizes;
mod sparse;

pub use all::build_images;
pub use faults::BuildFault;
pub use measures::sparse_length;
pub use one::build_image;
