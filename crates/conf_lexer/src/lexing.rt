ghost use Rattle.std.specs.Prelude.{All, ◌≡◌, ◌++◌, IfErr, IfOk, Ok, OnOk};
ghost use Rattle.conf_lexer.specs.Standing.{InOrder, StandsIn};
ghost use Rattle.conf_lexer.specs.Text.{Refuses, tokens_at, tokens_of};

use crate::pieces::{Piece, first_piece};
use crate::tokens::{LexFault, Token};
use base_fields::{List, Span};
use std::alloc::Global;

// Adds the token that a piece at this place is.
fn add_piece(tokens: &mut List<Token>, at: usize, piece: Piece) -> Result<(), LexFault>
    ensures ok { OnOk result (tokens.new ≡ tokens.old ++ tokens_at at piece) }
    ensures err { IfErr result (λ e. e ≡ LexFault.NoMemory) }
{
    let Some(kind) = piece.kind else {
        return Ok(())
    };
    let span = Span {
        at: at as u64,
        len: piece.len as u64,
    };
    tokens
        .push(Token { kind, span })
        .map_err(|_| LexFault::NoMemory)?;
    Ok(())
}

/// The tokens of a text, in order, each with its place and length in bytes from the text's start.
///
/// Every token is the slice of the text at its span; what stands between them is white space and comments.
pub fn lex(alloc: Global, text: &[u8]) -> Result<List<Token>, LexFault>
    ensures ok { IfOk result (λ tokens. tokens_of text.now ≡ Ok tokens) }
    ensures err { IfErr result (Refuses text.now) }
    ensures each { IfOk result (All (StandsIn text.now)) }
    ensures order { IfOk result (InOrder 0) }
{
    let mut tokens = List::new(alloc);
    let mut at = 0;
    let mut rest = text;
    while !rest.is_empty() {
        let Some(piece) = first_piece(rest) else {
            return Err(LexFault::BadText { place: at as u64 });
        };
        add_piece(&mut tokens, at, piece)?;
        at += piece.len;
        rest = rest.split_at(piece.len).1;
    }
    Ok(tokens)
}
