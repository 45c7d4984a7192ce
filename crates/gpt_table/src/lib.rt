//! The bytes of a GUID partition table: its entries, and the header in front with its backup.
#![tactic(auto)]

mod entry;
mod flags;
mod header;
mod laws;
mod names;
mod table;

pub use entry::GptEntry;
pub use flags::Flags;
pub use header::GptHeader;
pub use laws::{gpt_holds, gpt_lies_within, gpt_reads_back};
pub use names::name_units;
pub use table::{GptHeads, GptSpec, gpt};
