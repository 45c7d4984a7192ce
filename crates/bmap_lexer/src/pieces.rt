//! The item at the front of a text.
ghost use Rattle.std.specs.Prelude.{◌≡◌, ◌<◌, ◌≤◌, IfSome};
ghost use Rattle.bmap_grammar.specs.Items.{blank_at, comment_at, declaration_at, end_at, map_end_at, map_start_at};
ghost use Rattle.bmap_grammar.specs.Items.{piece_of, space_at, tag_at};
ghost use Rattle.bmap_lexer.specs.Within.{FitsIn};

use crate::elements::{element, start};
use crate::marks::{framed_length, spaces, tag_length};
use bmap_grammar::{Item, Piece};

// A run of white space.
fn space(text: &[u8]) -> Option<Piece>
    ensures there { result ≡ space_at text.now }
    ensures within { IfSome result (FitsIn text.now) }
{
    let len = spaces(text);
    if len == 0 {
        return None;
    }
    Some(Piece {
        item: Item::Blank,
        len,
    })
}

#[tactic(auto, unfolding(bmap_grammar::specs::Items::comment_at))]
fn comment(text: &[u8]) -> Option<Piece>
    ensures there { result ≡ comment_at text.now }
    ensures within { IfSome result (FitsIn text.now) }
{
    let len = framed_length(text, b"<!--", b"-->")?;
    Some(Piece {
        item: Item::Blank,
        len,
    })
}

#[tactic(auto, unfolding(bmap_grammar::specs::Items::declaration_at))]
fn declaration(text: &[u8]) -> Option<Piece>
    ensures there { result ≡ declaration_at text.now }
    ensures within { IfSome result (FitsIn text.now) }
{
    let len = framed_length(text, b"<?xml", b"?>")?;
    Some(Piece {
        item: Item::Declaration,
        len,
    })
}

#[tactic(auto, unfolding(bmap_grammar::specs::Items::end_at))]
fn end(text: &[u8]) -> Option<Piece>
    ensures there { result ≡ end_at text.now }
    ensures within { IfSome result (FitsIn text.now) }
{
    let len = tag_length(text, b"</bmap")?;
    Some(Piece {
        item: Item::End,
        len,
    })
}

#[tactic(auto, unfolding(bmap_grammar::specs::Items::map_start_at))]
fn map_start(text: &[u8]) -> Option<Piece>
    ensures there { result ≡ map_start_at text.now }
    ensures within { IfSome result (FitsIn text.now) }
{
    let len = tag_length(text, b"<BlockMap")?;
    Some(Piece {
        item: Item::MapStart,
        len,
    })
}

#[tactic(auto, unfolding(bmap_grammar::specs::Items::map_end_at))]
fn map_end(text: &[u8]) -> Option<Piece>
    ensures there { result ≡ map_end_at text.now }
    ensures within { IfSome result (FitsIn text.now) }
{
    let len = tag_length(text, b"</BlockMap")?;
    Some(Piece {
        item: Item::MapEnd,
        len,
    })
}

// White space, a comment or a declaration.
fn blank(text: &[u8]) -> Option<Piece>
    ensures there { result ≡ blank_at text.now }
    ensures within { IfSome result (FitsIn text.now) }
{
    if let Some(piece) = space(text) {
        return Some(piece);
    }
    match comment(text) {
        Some(piece) => Some(piece),
        None => declaration(text),
    }
}

// A tag of the document or of its block map.
fn tag(text: &[u8]) -> Option<Piece>
    ensures there { result ≡ tag_at text.now }
    ensures within { IfSome result (FitsIn text.now) }
{
    if let Some(piece) = start(text) {
        return Some(piece);
    }
    if let Some(piece) = end(text) {
        return Some(piece);
    }
    match map_start(text) {
        Some(piece) => Some(piece),
        None => map_end(text),
    }
}

/// The item at the front of a text. Takes no memory, and looks at no byte behind the item, unless there is none.
pub fn first_piece(text: &[u8]) -> Option<Piece>
    ensures there { result ≡ piece_of text.now }
    ensures within { IfSome result (FitsIn text.now) }
{
    if let Some(piece) = blank(text) {
        return Some(piece);
    }
    match tag(text) {
        Some(piece) => Some(piece),
        None => element(text),
    }
}
