//! The bytes of a master boot record, and of one entry in a table of its form.
#![tactic(auto)]

mod chs;
mod laws;
mod mbr;

pub use laws::mbr_reads_back;
pub use mbr::{MARK, MbrEntry, MbrSpec, mbr_bytes, protective_entry, put_entry};
