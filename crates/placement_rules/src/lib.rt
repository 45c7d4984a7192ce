//! The rules by which the partitions of a disk image are placed: which numbers they rest on, where each partition stands,
//! and what refuses it by its own numbers.
#![tactic(auto)]

mod checks;
mod faults;
mod frames;
mod listing;
mod places;
mod standing;
mod terms;

pub use checks::off_multiple;
pub use faults::{Meeting, PartFault, PlaceFault};
pub use frames::{frame_of, has_guid, has_table};
pub use listing::{count_tabled, terms_of};
pub use places::{backup_len, least_multiple};
pub use standing::stand;
pub use terms::{Frame, Place, Terms};
