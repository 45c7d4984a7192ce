//! The tokens of a configuration's text, or the first place that is no token.
#![tactic(auto)]

mod extents;
mod laws;
mod lexing;
mod marks;
mod pieces;
mod tokens;
mod variables;

pub use laws::{joined_texts, names_in_texts, texts_in_pieces};
pub use lexing::lex;
pub use marks::is_space_byte;
pub use tokens::{LexFault, Token, TokenKind};
pub use variables::{name_length, variable_length};
