//! What each partition of a disk image occupies, and which of them meets another one or a table.
#![tactic(auto)]

mod claim;
mod earlier;
mod frames;
mod pieces;

pub use claim::Claim;
pub use earlier::Earlier;
pub use frames::met;
