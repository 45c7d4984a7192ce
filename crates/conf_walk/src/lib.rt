//! The walk through the texts of a configuration: its main text with all that it includes, each
//! variable replaced, as the outline of the sections that they say.
#![tactic(auto)]

mod running;
mod walking;

pub use conf_texts::{Vars, WalkFault};
pub use walking::{Texts, read_texts};
