//! Reads partition tables back from files: the master boot record with its extended chain, and the GUID partition
//! table with its backup. It leaves every file as it is.
#![tactic(auto)]

mod chain;
mod fault;
mod gpt;
mod halves;
mod parts;
mod tables;

pub use fault::TableFault;
pub use gpt_reading::GptTable;
pub use tables::{Tables, read_tables};
