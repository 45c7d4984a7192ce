//! What the steps of a scenario share: the words of a line, the bytes that they describe, how bytes are shown, and the
//! files in memory.
#![tactic(auto)]

mod arguments;
mod contents;
mod setting;
mod shelf;
mod showing;
mod words;

pub use arguments::Arguments;
pub use contents::Contents;
pub use setting::Setting;
pub use shelf::Shelf;
pub use showing::{done, hex_of, part, shown};
pub use words::split;
