//! The items of a text, one behind another.
ghost use Rattle.std.specs.Prelude.{◌≡◌, ◌+◌, ◌<◌, ◌≤◌, IfOk, length};
ghost use Rattle.bmap_grammar.specs.Document.{Answers, stood_from};
ghost use Rattle.bmap_grammar.specs.Stood.{nothing};
ghost use Rattle.bmap_reader.specs.Holds.{HasItems, IsStood};

use crate::standing::{nothing, stand};
use bmap_grammar::{MapFault, Stood};
use bmap_lexer::first_piece;
use std::alloc::Global;

/// What has stood in a text. Takes memory. It looks at each byte a fixed number of times.
pub(crate) fn read_items(alloc: Global, text: &[u8]) -> Result<Stood, MapFault>
    ensures answers { Answers (stood_from 0 nothing 0 text.now) result }
    ensures items { IfOk result (HasItems text.now) }
    ensures holds { IfOk result (IsStood (length text.now)) }
{
    let mut stood = nothing(alloc);
    let mut at = 0;
    let mut rest = text;
    while !rest.is_empty() {
        let Some(piece) = first_piece(rest) else {
            return Err(MapFault::BadMap { place: at as u64 });
        };
        let after = stand(stood, at as u64, piece)?;
        stood = after;
        at += piece.len;
        rest = rest.split_at(piece.len).1;
    }
    Ok(stood)
}
