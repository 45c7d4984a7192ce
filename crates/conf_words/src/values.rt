ghost use Rattle.std.specs.Prelude.{◌≡◌, ◌<◌, Ok, Err};
ghost use Rattle.conf_words.specs.Values.{Answers, between, expansion, value_of};

use crate::parts::first_part;
use base_fields::{List, Name, Pair};
use conf_lexer::TokenKind;
use std::alloc::Global;

/// The variables of a configuration. The first pair with a name counts.
pub type Vars = List<Pair>;

/// Why a token has no value.
#[derive(Debug, Drop)]
pub enum ValueFault {
    /// There is no variable of that name, and no text in its place.
    Unset { var: Name },
    /// Memory was refused.
    NoMemory,
}

// What is between the quotes, or all where they don't stand there.
fn between(text: &str, quote: u8) -> &str
    requires { quote < 128 }
    ensures { result.now ≡ between quote text.now }
{
    match text.as_bytes() {
        [first, inside @ .., last] if *first == quote && *last == quote => {
            text.split_at(1).1.split_at(inside.len()).0
        }
        _ => text,
    }
}

// The text as it is.
fn copied(alloc: Global, text: &str) -> Result<Name, ValueFault>
    ensures { Answers (Ok text.now) result }
{
    Name::of(alloc, text).map_err(|_| ValueFault::NoMemory)
}

// The fault of a name that has no value.
fn unset(alloc: Global, name: &str) -> ValueFault
    ensures { Answers (Err name.now) (Err result) }
{
    match Name::of(alloc, name) {
        Ok(var) => ValueFault::Unset { var },
        Err(_) => ValueFault::NoMemory,
    }
}

// The text with its variables replaced, and its escapes where they count.
fn expanded(alloc: Global, vars: &Vars, escapes: bool, text: &str) -> Result<Name, ValueFault>
    ensures { Answers (expansion vars.now escapes text.now) result }
{
    let mut value = String::new(alloc);
    let mut rest = text;
    while !rest.is_empty() {
        let part = first_part(vars, escapes, rest);
        match part.value {
            Ok(piece) => value.push_str(piece).map_err(|_| ValueFault::NoMemory)?,
            Err(name) => return Err(unset(alloc, name)),
        }
        rest = rest.split_at(part.len).1;
    }
    Ok(Name::from_string(value))
}

/// The text of a token of that kind, with its variables replaced by their values. Takes memory.
///
/// A quoted text is what stands between its quotes: a single-quoted one as it is, a double-quoted
/// one with its escapes and variables replaced. A bare word has its variables replaced, and a mark
/// is its own text.
///
/// Refused is a text with a variable that has neither a value nor a text in its place, by the name
/// of the first such.
pub fn value_of(
    alloc: Global,
    vars: &Vars,
    kind: TokenKind,
    spelling: &str,
) -> Result<Name, ValueFault>
    ensures { Answers (value_of vars.now kind spelling.now) result }
{
    match kind {
        TokenKind::Word => expanded(alloc, vars, false, spelling),
        TokenKind::Double => expanded(alloc, vars, true, between(spelling, b'"')),
        TokenKind::Single => copied(alloc, between(spelling, b'\'')),
        _ => copied(alloc, spelling),
    }
}
