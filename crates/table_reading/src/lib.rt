//! Partition tables read back from bytes: the first sector of an image, whether a header of a GUID partition table is
//! right, and a boot record of an extended partition.
#![tactic(auto)]

mod first_sector;
mod header;
mod record;
mod sector;

pub use first_sector::{extended_slot, kind_of, read_entry, read_mbr, read_number};
pub use header::{HeaderFault, check_header, read_long};
pub use record::{BootRecord, read_record};
pub use sector::sector_size;
