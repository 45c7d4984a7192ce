ghost use Rattle.std.specs.Prelude.{◌≡◌, ◌≤◌, ◌<◌, length, IfSome};
ghost use Rattle.conf_lexer.specs.Text.{comment_len, double_len, is_text, piece_of, single_len, spelled};

use crate::extents::{comment_length, double_length, line_length, word_length};
use crate::marks::{is_space_byte, mark};
use crate::tokens::TokenKind;
use crate::variables::length_through;
use std::str;

/// A piece of a text: a token of that kind or what is skipped, and its length in bytes.
#[derive(Clone, Copy, Debug, PartialEq, Eq)]
pub struct Piece {
    pub kind: Option<TokenKind>,
    pub len: usize,
}

// The length of the comment at the front of a text that begins with `/*`.
fn block_length(text: &[u8]) -> Option<usize>
    requires { 2 ≤ length text.now }
    ensures there { result ≡ comment_len text.now }
    ensures within { IfSome result (λ n. (0 < n) × (n ≤ length text.now)) }
{
    Some(2 + comment_length(text.split_at(2).1)?)
}

// The length of the double-quoted text at the front, with its quotes.
fn double_text_length(text: &[u8]) -> Option<usize>
    requires { 0 < length text.now }
    ensures there { result ≡ double_len text.now }
    ensures within { IfSome result (λ n. (0 < n) × (n ≤ length text.now)) }
{
    Some(1 + double_length(text.split_at(1).1)?)
}

// The length of the single-quoted text at the front, with its quotes.
fn single_text_length(text: &[u8]) -> Option<usize>
    requires { 0 < length text.now }
    ensures there { result ≡ single_len text.now }
    ensures within { IfSome result (λ n. (0 < n) × (n ≤ length text.now)) }
{
    Some(1 + length_through(text.split_at(1).1, b'\'')?)
}

#[tactic(auto, using(crate::proofs::Utf8::utf8_yes, crate::proofs::Utf8::utf8_no))]
fn utf8(bytes: &[u8]) -> bool
    ensures { result ≡ is_text bytes.now }
{
    match str::from_utf8(bytes) {
        Ok(_) => true,
        Err(_) => false,
    }
}

// The token of that kind, of so many bytes, where they are UTF-8.
fn spelled_piece(kind: TokenKind, text: &[u8], len: Option<usize>) -> Option<Piece>
    requires { IfSome len (λ n. (0 < n) × (n ≤ length text.now)) }
    ensures there { result ≡ spelled kind text.now len }
    ensures within { IfSome result (λ p. (0 < p.len) × (p.len ≤ length text.now)) }
{
    let len = len?;
    if !utf8(text.split_at(len).0) {
        return None;
    }
    Some(Piece {
        kind: Some(kind),
        len,
    })
}

// The first piece of a text.
pub fn first_piece(text: &[u8]) -> Option<Piece>
    ensures there { result ≡ piece_of text.now }
    ensures within { IfSome result (λ p. (0 < p.len) × (p.len ≤ length text.now)) }
{
    let [first, ..] = text else { return None };
    if is_space_byte(*first) {
        return Some(Piece { kind: None, len: 1 });
    }
    if let Some(kind) = mark(*first) {
        return Some(Piece {
            kind: Some(kind),
            len: 1,
        });
    }
    if *first == b'"' {
        return spelled_piece(TokenKind::Double, text, double_text_length(text));
    }
    if *first == b'\'' {
        return spelled_piece(TokenKind::Single, text, single_text_length(text));
    }
    if *first == b'#' || text.starts_with(b"//") {
        return Some(Piece {
            kind: None,
            len: 1 + line_length(text.split_at(1).1),
        });
    }
    if text.starts_with(b"/*") {
        return Some(Piece {
            kind: None,
            len: block_length(text)?,
        });
    }
    if text.starts_with(b"+=") {
        return Some(Piece {
            kind: Some(TokenKind::PlusEquals),
            len: 2,
        });
    }
    spelled_piece(TokenKind::Word, text, word_length(text))
}
