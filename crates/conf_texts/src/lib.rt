//! One text of a configuration: its bytes and tokens, and where each of its tokens leads.
#![tactic(auto)]

mod fault;
mod steps;
mod texts;

pub use conf_words::Vars;
pub use fault::WalkFault;
pub use steps::{Taken, step, take};
pub use texts::{Reading, Text, bad_text, read_text};
