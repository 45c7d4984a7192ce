//! What lies outside of the program: files by name and a printer of lines, each as a trait with its meaning and its
//! counts, and as objects in memory.
#![tactic(auto)]

mod failures;
mod files;
mod lines;
mod memory;
mod printer;
mod reading;
mod writing;

pub use failures::Failures;
pub use files::{ComposeFault, FileErr, Files, WriteErr};
pub use lines::{MemPrinter, SurePrinter};
pub use memory::{MemFiles, SureFiles, TrickleFiles};
pub use printer::{PrintErr, Printer};
pub use reading::{FillFault, fill};
pub use writing::{TransferFault, transfer};
