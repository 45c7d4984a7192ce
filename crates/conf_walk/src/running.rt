//! One text: its tokens one after another, up to its end or a text that is included.
ghost use Rattle.std.specs.Prelude.{◌≡◌, ℕ, ◌+◌, ◌≤◌, ◌⊎◌, All, IfErr, IfOk, List, OnErr, OnOk, Result, Some, false, length, slice_get, true};
ghost use Rattle.conf_items.specs.Grammar.{may_end};
ghost use Rattle.conf_items.specs.Outline.{deeper_of};
ghost use Rattle.conf_lexer.specs.Standing.{StandsIn};
ghost use Rattle.conf_texts.specs.Answers.{IsNoFileFault};
ghost use Rattle.conf_walk.specs.Stack.{Goes, IsOpen, Leads, Stops, begun, goes_on, left_of, left_then, rest_walked};
ghost use Rattle.conf_texts.specs.Texts.{most_bytes};

use crate::{Vars, WalkFault};
use conf_items::{Move, Parser, Word};
use conf_lexer::Token;
use conf_texts::{Reading, Taken, Text, bad_text, step, take};
use std::alloc::Global;

/// A text that is walked.
#[derive(Debug, Drop)]
pub struct OpenText {
    pub source: Text,
    /// How many of its tokens were walked.
    pub at: usize,
    /// What may stand next.
    pub parser: Parser,
}

/// A text behind one of its tokens, and what that made whole.
#[derive(Debug, Drop)]
struct Turn {
    text: OpenText,
    taken: Taken,
}

/// Where the tokens of a text stopped.
#[derive(Debug, Drop)]
pub enum Stop {
    /// The text has ended.
    Ended(Reading),
    /// The text of that name stands here, and then the rest of this one.
    Includes(OpenText, Word, Reading),
}

impl OpenText {
    /// A text of which nothing was walked. Takes no memory.
    pub fn new(source: Text) -> OpenText
        requires stands { All (StandsIn source.bytes) source.tokens }
        requires count { length source.tokens ≤ most_bytes }
        ensures text { result ≡ begun source }
        ensures holds { IsOpen result }
    {
        OpenText {
            source,
            at: 0,
            parser: Parser::start(),
        }
    }

    // The next token.
    fn token(&self) -> Option<Token>
        ensures { result ≡ slice_get self.now.source.tokens self.now.at }
    {
        self.source.tokens.get(self.at).copied()
    }
}

// One token of a text.
fn walk_token(
    alloc: Global,
    vars: &Vars,
    text: OpenText,
    token: Token,
    reading: Reading,
) -> Result<Turn, WalkFault>
    requires holds { IsOpen text }
    requires token { slice_get text.source.tokens text.at ≡ Some token }
    requires room { deeper_of reading.outline + left_of text ≤ most_bytes }
    ensures leads { (included : List ℕ → Reading → Result Reading WalkFault) → Leads (rest_walked included vars.now text reading) (goes_on included vars.now) result }
    ensures holds { IfOk result (λ made. IsOpen made.text) }
    ensures goes { IfOk result (Goes text reading) }
    ensures fault { IfErr result IsNoFileFault }
{
    let OpenText { source, at, parser } = text;
    let Move { parser, output } = step(alloc, vars, &source, parser, token)?;
    let taken = take(alloc, output, reading)?;
    let at = at + 1;
    Ok(Turn {
        text: OpenText { source, at, parser },
        taken,
    })
}

// The refusal of a text that ends within an item or a section.
fn look_at_end(alloc: Global, text: &OpenText) -> Result<(), WalkFault>
    ensures ok { OnOk result (may_end text.now.parser ≡ true) }
    ensures err { OnErr result (may_end text.now.parser ≡ false) }
    ensures fault { IfErr result (λ fault. (fault ≡ WalkFault.BadText text.now.source.name (length text.now.source.bytes)) ⊎ (fault ≡ WalkFault.NoMemory)) }
{
    if text.parser.may_end() {
        return Ok(());
    }
    let end = text.source.bytes.bytes().len() as u64;
    Err(bad_text(alloc, text.source.name.text(), end)?)
}

// Lets go of a text that was walked, where it may end. It is dropped here, apart from what was read.
fn end_text(alloc: Global, text: OpenText) -> Result<(), WalkFault>
    ensures ok { OnOk result (may_end text.parser ≡ true) }
    ensures err { OnErr result (may_end text.parser ≡ false) }
    ensures fault { IfErr result (λ fault. (fault ≡ WalkFault.BadText text.source.name (length text.source.bytes)) ⊎ (fault ≡ WalkFault.NoMemory)) }
{
    look_at_end(alloc, &text)
}

/// Walks the tokens of a text up to its end or a text that is included. Takes memory.
pub fn run_text(
    alloc: Global,
    vars: &Vars,
    mut text: OpenText,
    mut reading: Reading,
) -> Result<Stop, WalkFault>
    requires holds { IsOpen text }
    requires room { deeper_of reading.outline + left_of text ≤ most_bytes }
    ensures leads { (included : List ℕ → Reading → Result Reading WalkFault) → Leads (rest_walked included vars.now text reading) (left_then included vars.now) result }
    ensures stops { IfOk result (Stops text reading) }
    ensures fault { IfErr result IsNoFileFault }
{
    while let Some(token) = text.token() {
        let Turn {
            text: behind,
            taken,
        } = walk_token(alloc, vars, text, token, reading)?;
        match taken {
            Taken::Goes(after) => {
                text = behind;
                reading = after;
            }
            Taken::Includes(name, after) => return Ok(Stop::Includes(behind, name, after)),
        }
    }
    end_text(alloc, text)?;
    Ok(Stop::Ended(reading))
}
