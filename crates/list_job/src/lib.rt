//! What an image is listed by: read from its file, and printed line by line. No file is changed.
#![tactic(auto)]

mod fault;
mod listing;
mod printing;
mod reading;

pub use fault::ListFault;
pub use listing::Listing;
pub use printing::print_listing;
pub use reading::read_listing;
