//! Laws of what the sections of a configuration say: a key has the value that its last text stands
//! for, whatever sections stand beside it, and the fault of a section is that of its first item that
//! has one.
#![tactic(auto)]

mod laws;

pub use laws::{accepted_keys, accepted_top_keys, first_faults, last_keys};
