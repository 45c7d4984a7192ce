ghost use Rattle.std.specs.Prelude.{◌≡◌};
ghost use Rattle.conf_lexer.specs.Text.{ends_word, is_letter, is_name_byte, is_space, mark_of};

use crate::tokens::TokenKind;

/// Whether this byte is white space: a space, a tab, a line feed or a carriage return.
pub fn is_space_byte(b: u8) -> bool
    ensures { result ≡ is_space b }
{
    matches!(b, b' ' | b'\t' | b'\n' | b'\r')
}

pub fn begins_name(b: u8) -> bool
    ensures { result ≡ is_letter b }
{
    b.is_ascii_alphabetic() || b == b'_'
}

pub fn continues_name(b: u8) -> bool
    ensures { result ≡ is_name_byte b }
{
    b.is_ascii_alphanumeric() || b == b'_'
}

// The mark of one byte that this byte is.
pub fn mark(b: u8) -> Option<TokenKind>
    ensures { result ≡ mark_of b }
{
    match b {
        b'{' => Some(TokenKind::OpenBrace),
        b'}' => Some(TokenKind::CloseBrace),
        b'(' => Some(TokenKind::OpenParen),
        b')' => Some(TokenKind::CloseParen),
        b'=' => Some(TokenKind::Equals),
        b',' => Some(TokenKind::Comma),
        _ => None,
    }
}

// Whether a bare word ends before this text.
pub fn word_ends(text: &[u8]) -> bool
    ensures { result ≡ ends_word text.now }
{
    let [first, ..] = text else { return true };
    is_space_byte(*first)
        || matches!(*first, b'"' | b'\'')
        || mark(*first).is_some()
        || text.starts_with(b"+=")
}
