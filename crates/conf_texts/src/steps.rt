//! One token of a text: where it leads, and what it makes whole.
ghost use Rattle.std.specs.Prelude.{◌≡◌, ℕ, ◌+◌, ◌-◌, ◌<◌, ◌≤◌, ◌^◌, IfErr, IfOk, List, Result};
ghost use Rattle.conf_items.specs.Outline.{deeper_of};
ghost use Rattle.conf_lexer.specs.Standing.{StandsIn};
ghost use Rattle.conf_words.specs.Values.{value_of};
ghost use Rattle.base_fields.specs.Results.{refused_by};
ghost use Rattle.conf_texts.specs.Answers.{Answers, IsNoFileFault};
ghost use Rattle.conf_texts.specs.Steps.{met, reading_of, shaped, spelling_of, stepped, taken};
ghost use Rattle.conf_texts.specs.Steps.{with_value};

use crate::texts::{Reading, Text, bad_text};
use crate::{Vars, WalkFault};
use base_fields::{Name, NoMemory};
use conf_items::{Lexeme, Mark, Move, Output, Parser, Place, Word};
use conf_lexer::{Token, TokenKind};
use conf_words::{ValueFault, value_of};
use std::alloc::Global;
use std::str;

/// What was read up to here, and whether the next thing is a text that is included.
#[derive(Debug, Drop)]
pub enum Taken {
    /// The tokens go on.
    Goes(Reading),
    /// The text of that name stands here.
    Includes(Word, Reading),
}

// The bytes of a token, which are text.
fn spelling<'a>(text: &'a Text, token: Token) -> &'a str
    requires { StandsIn text.now.bytes token }
    ensures { result.now ≡ spelling_of text.now token }
{
    let behind = text.bytes.bytes().split_at(token.span.at as usize).1;
    let bytes = behind.split_at(token.span.len as usize).0;
    match str::from_utf8(bytes) {
        Ok(spelling) => spelling,
        Err(_) => unreachable!(),
    }
}

// A token of that kind with its value.
fn shape(kind: TokenKind, include: bool, word: Word) -> Lexeme
    ensures { result ≡ shaped kind include word }
{
    match kind {
        TokenKind::Word => Lexeme::Bare(word, include),
        TokenKind::Double | TokenKind::Single => Lexeme::Quoted(word),
        TokenKind::OpenBrace => Lexeme::OpenBrace(word.place),
        TokenKind::CloseBrace => Lexeme::CloseBrace,
        TokenKind::OpenParen => Lexeme::OpenParen,
        TokenKind::CloseParen => Lexeme::CloseParen,
        TokenKind::Equals => Lexeme::Assign(Mark::Equals),
        TokenKind::PlusEquals => Lexeme::Assign(Mark::PlusEquals),
        TokenKind::Comma => Lexeme::Comma,
    }
}

// A token with its value.
fn lexeme_of(text: &Text, token: Token, spelling: &str, value: Name) -> Lexeme
    requires { spelling.now ≡ spelling_of text.now token }
    ensures { result ≡ with_value text.now token value }
{
    let place = Place {
        text: text.number,
        at: token.span.at,
    };
    let word = Word { text: value, place };
    shape(token.kind, spelling == "include", word)
}

// The value of a token.
fn value(alloc: Global, vars: &Vars, kind: TokenKind, spelling: &str) -> Result<Name, WalkFault>
    ensures answers { Answers (refused_by WalkFault.Unset (value_of vars.now kind spelling.now)) result }
    ensures fault { IfErr result IsNoFileFault }
{
    match value_of(alloc, vars, kind, spelling) {
        Ok(value) => Ok(value),
        Err(ValueFault::Unset { var }) => Err(WalkFault::Unset { var }),
        Err(ValueFault::NoMemory) => Err(WalkFault::NoMemory),
    }
}

/// Where a token of a text leads. Takes memory.
pub fn step(
    alloc: Global,
    vars: &Vars,
    text: &Text,
    parser: Parser,
    token: Token,
) -> Result<Move, WalkFault>
    requires stands { StandsIn text.now.bytes token }
    requires depth { parser.depth < 2 ^ 64 - 1 }
    ensures answers { Answers (stepped vars.now text.now parser token) result }
    ensures depth { IfOk result (λ made. made.parser.depth ≤ parser.depth + 1) }
    ensures fault { IfErr result IsNoFileFault }
{
    if !parser.allows(token.kind) {
        return Err(bad_text(alloc, text.name.text(), token.span.at)?);
    }
    let spelling = spelling(text, token);
    let value = value(alloc, vars, token.kind, spelling)?;
    let lexeme = lexeme_of(text, token, spelling, value);
    match parser.advance(alloc, lexeme)? {
        Some(made) => Ok(made),
        None => Err(bad_text(alloc, text.name.text(), token.span.at)?),
    }
}

/// What was read with what a token makes whole. Takes memory.
pub fn take(alloc: Global, output: Output, reading: Reading) -> Result<Taken, NoMemory>
    requires { deeper_of reading.outline < 2 ^ 64 - 1 }
    ensures made { IfOk result (λ made. (included : List ℕ → Reading → Result Reading WalkFault) → taken included output reading ≡ met included made) }
    ensures deeper { IfOk result (λ made. deeper_of (reading_of made).outline ≤ deeper_of reading.outline + 1) }
    ensures total { IfOk result (λ made. (reading_of made).total ≡ reading.total) }
{
    let Reading {
        outline,
        total,
        names,
    } = reading;
    let outline = match output {
        Output::Nothing => outline,
        Output::Setting(setting) => outline.add(setting)?,
        Output::Open(head) => outline.begin(alloc, head)?,
        Output::Close => outline.end()?,
        Output::Include(name) => {
            let reading = Reading {
                outline,
                total,
                names,
            };
            return Ok(Taken::Includes(name, reading));
        }
    };
    Ok(Taken::Goes(Reading {
        outline,
        total,
        names,
    }))
}
