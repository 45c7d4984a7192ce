//! The entries of partition tables, by the keys of a partition's section and its place.
#![tactic(auto)]

mod gpt_entries;
mod identifiers;
mod mbr_entries;

pub use gpt_entries::gpt_entry;
pub use identifiers::disk_guid;
pub use mbr_entries::{logical_spec, mbr_entry};
