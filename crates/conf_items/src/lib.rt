//! The items of a configuration's texts: which token may stand where, and the outline of the sections
//! that the tokens of all texts make.
#![tactic(auto)]

mod grammar;
mod items;
mod outline;

pub use grammar::{Lexeme, Mark, Move, Next, OpenList, Output, Parser};
pub use items::{Given, Head, Place, Setting, Value, Word};
pub use outline::{InnerItem, OpenSections, Outline, SectionItem, Subsection, TopItem, TopSection};
