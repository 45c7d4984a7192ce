//! Values: where they stand, and what they say.
ghost use Rattle.std.specs.Prelude.{◌≡◌, ◌+◌, ◌^◌, ◌<◌, ◌≤◌, IfSome, OnSome, length};
ghost use Rattle.std.specs.Char.{digit_value, is_ascii_digit};
ghost use Rattle.std.specs.List.{list_all};
ghost use Rattle.bmap_grammar.specs.Text.{bare_in, blocks_of, digest_of, element_of, is_number, number_of, pair_of};
ghost use Rattle.bmap_grammar.specs.Text.{small_value, value_in, valued};
ghost use Rattle.bmap_lexer.specs.Within.{IsFrom, IsWithin};

use crate::marks::{first_place, inside_length, spaces, spaces_behind, tag_length};
use bmap_grammar::Held;

/// The bytes of a value.
pub(crate) fn value_in<'a>(text: &'a [u8], held: &Held) -> &'a [u8]
    requires { IsWithin text.now held.now }
    ensures value { result.now ≡ value_in text.now held.now }
    ensures len { length result.now ≡ held.now.count }
{
    text.split_at(held.at).1.split_at(held.count).0
}

/// What is held, with so many bytes before it.
pub(crate) fn moved(n: usize, held: Held) -> Held
    requires fits { n + held.len < 2 ^ 64 }
    requires inside { held.at + held.count ≤ held.len }
    ensures { result ≡ record { at = n + held.at; count = held.count; len = n + held.len } }
{
    Held {
        at: n + held.at,
        count: held.count,
        len: n + held.len,
    }
}

/// What is inside without the white space round it, before a tag of so many bytes.
fn bare_in(inside: &[u8], tag: usize) -> Held
    requires { length inside.now + tag < 2 ^ 64 }
    ensures there { result ≡ bare_in inside.now tag }
    ensures within { result.at + result.count ≤ result.len }
{
    let at = spaces(inside);
    let bare = inside.split_at(at).1;
    Held {
        at,
        count: bare.len() - spaces_behind(bare),
        len: inside.len() + tag,
    }
}

/// The value before the closing tag that begins with these bytes.
pub(crate) fn valued(text: &[u8], closing: &[u8]) -> Option<Held>
    ensures there { result ≡ valued closing.now text.now }
    ensures within { IfSome result (IsWithin text.now) }
{
    let (inside, rest) = text.split_at(inside_length(text));
    let tag = tag_length(rest, closing)?;
    Some(bare_in(inside, tag))
}

/// The value of an element, whose tags begin with these bytes.
pub(crate) fn element_of(text: &[u8], opening: &[u8], closing: &[u8]) -> Option<Held>
    ensures there { result ≡ element_of opening.now closing.now text.now }
    ensures within { IfSome result (IsFrom (length opening.now) text.now) }
{
    let tag = tag_length(text, opening)?;
    let held = valued(text.split_at(tag).1, closing)?;
    Some(moved(tag, held))
}

// The value of a digit, or 36.
fn digit(byte: u8) -> u64
    ensures { result ≡ digit_value byte }
{
    match byte {
        b'0'..=b'9' => u64::from(byte - b'0'),
        b'A'..=b'Z' => u64::from(byte - b'A') + 10,
        b'a'..=b'z' => u64::from(byte - b'a') + 10,
        _ => 36,
    }
}

/// The number that the digits write, where a u64 holds it.
fn small_value(digits: &[u8]) -> Option<u64>
    ensures { result ≡ small_value digits.now }
{
    let mut value: u64 = 0;
    for byte in digits {
        value = value.checked_mul(10)?.checked_add(digit(*byte))?;
    }
    Some(value)
}

fn all_digits(text: &[u8]) -> bool
    ensures { result ≡ list_all is_ascii_digit text.now }
{
    text.iter().all(|byte| byte.is_ascii_digit())
}

fn is_number(text: &[u8]) -> bool
    ensures { result ≡ is_number text.now }
{
    all_digits(text) && !text.is_empty() && text.len() <= 20
}

/// A number of 1 to 20 decimal digits.
pub(crate) fn number(text: &[u8]) -> Option<u64>
    ensures { result ≡ number_of text.now }
{
    if is_number(text) {
        small_value(text)
    } else {
        None
    }
}

/// A digest of 64 hexadecimal digits.
pub(crate) fn digest(text: &[u8]) -> Option<[u8; 32]>
    ensures there { result ≡ digest_of text.now }
    ensures long { OnSome result (length text.now ≡ 64) }
{
    let mut bytes = [0; 32];
    match hex::decode_to_slice(text, &mut bytes) {
        Ok(()) => Some(bytes),
        Err(_) => None,
    }
}

// Two numbers, with a byte between them at that place.
fn pair(text: &[u8], at: usize) -> Option<(u64, u64)>
    requires { at < length text.now }
    ensures { result ≡ pair_of text.now at }
{
    let first = number(text.split_at(at).0)?;
    let last = number(text.split_at(at + 1).1)?;
    Some((first, last))
}

/// The first and the last block of a range.
pub(crate) fn blocks(text: &[u8]) -> Option<(u64, u64)>
    ensures { result ≡ blocks_of text.now }
{
    match first_place(text, b'-') {
        Some(at) => pair(text, at),
        None => {
            let block = number(text)?;
            Some((block, block))
        }
    }
}
