//! A GUID partition table read back from the bytes of its headers and entries.
#![tactic(auto)]

mod differences;
mod slots;
mod tables;

pub use differences::{field_unlike, first_unlike};
pub use slots::read_slot;
pub use tables::{GptTable, read_table};
