//! The tables of an image, which are put into its file: the master boot record, the boot records of the logical
//! partitions, and the GUID partition table with its backup.
#![tactic(auto)]

mod guid;
mod putting;

pub use putting::put_tables;
