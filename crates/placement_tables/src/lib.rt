//! The law that the tables of an image that is placed are sound: each entry fits its fields, the
//! logical partitions make a chain, and a GUID partition table has room for its backup.
#![tactic(auto)]

mod laws;

pub use laws::placed_is_tabled;
