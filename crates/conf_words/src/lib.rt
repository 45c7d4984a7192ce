//! The value of one token of a configuration: its text, with the variables replaced.
#![tactic(auto)]

mod parts;
mod values;
mod variables;

pub use values::{ValueFault, Vars, value_of};
