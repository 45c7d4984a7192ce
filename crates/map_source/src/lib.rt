//! The MAP of a command: the block map that the text of a file is the document of, and the digest of that text.
#![tactic(auto)]

mod faults;
mod sources;
mod texts;

pub use faults::SourceFault;
pub use sources::{MapSource, read_map};
