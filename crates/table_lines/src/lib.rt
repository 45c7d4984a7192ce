//! The lines that list a partition table: its kind, the slots of its master boot record, its logical partitions, and the
//! entries of its GUID partition table. A line is made in a room of 1,024 bytes with no memory taken.
#![tactic(auto)]

mod lines;
mod parts;

pub use line_parts::LINE_ROOM;
pub use lines::{entry_line, gpt_line, logical_line, primary_line, table_line};
