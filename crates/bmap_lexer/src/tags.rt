//! Tags with an attribute.
ghost use Rattle.std.specs.Prelude.{◌≡◌, ◌+◌, ◌<◌, ◌≤◌, IfSome, length};
ghost use Rattle.bmap_grammar.specs.Text.{assigned, attribute_of, closed, ended, is_quote, quoted, sign_quoted, spaced_quoted, tag_with};
ghost use Rattle.bmap_lexer.specs.Within.{IsFrom, IsWithin};

use crate::marks::{end_length, first_place, spaces};
use crate::values::moved;
use bmap_grammar::Held;

fn is_quote(b: u8) -> bool
    ensures { result ≡ is_quote b }
{
    matches!(b, b'"' | b'\'')
}

// The value before the next such quote, behind one.
fn closed(rest: &[u8], quote: u8) -> Option<Held>
    ensures there { result ≡ closed quote rest.now }
    ensures within { IfSome result (λ h. (h.at + h.count ≤ h.len) × (h.len ≤ length rest.now + 1)) }
{
    let count = first_place(rest, quote)?;
    Some(Held {
        at: 1,
        count,
        len: count + 2,
    })
}

// A value in quotes.
fn quoted(text: &[u8]) -> Option<Held>
    ensures there { result ≡ quoted text.now }
    ensures within { IfSome result (IsWithin text.now) }
{
    match text {
        [quote, rest @ ..] if is_quote(*quote) => closed(rest, *quote),
        _ => None,
    }
}

// White space and a value in quotes.
fn spaced_quoted(text: &[u8]) -> Option<Held>
    ensures there { result ≡ spaced_quoted text.now }
    ensures within { IfSome result (IsWithin text.now) }
{
    let space = spaces(text);
    let held = quoted(text.split_at(space).1)?;
    Some(moved(space, held))
}

// `=`, and a value in quotes behind it.
fn sign_quoted(text: &[u8]) -> Option<Held>
    ensures there { result ≡ sign_quoted text.now }
    ensures within { IfSome result (IsWithin text.now) }
{
    if !text.starts_with(b"=") {
        return None;
    }
    let held = spaced_quoted(text.split_at(1).1)?;
    Some(moved(1, held))
}

// White space, `=`, and a value in quotes.
fn assigned(text: &[u8]) -> Option<Held>
    ensures there { result ≡ assigned text.now }
    ensures within { IfSome result (IsWithin text.now) }
{
    let space = spaces(text);
    let held = sign_quoted(text.split_at(space).1)?;
    Some(moved(space, held))
}

// The value of the attribute that stands behind these bytes.
fn attribute(text: &[u8], front: &[u8]) -> Option<Held>
    ensures there { result ≡ attribute_of front.now text.now }
    ensures within { IfSome result (IsFrom (length front.now) text.now) }
{
    if !text.starts_with(front) {
        return None;
    }
    let held = assigned(text.split_at(front.len()).1)?;
    Some(moved(front.len(), held))
}

// What is held, and the end of its tag.
fn ended(text: &[u8], held: Held) -> Option<Held>
    requires { IsWithin text.now held }
    ensures there { result ≡ ended text.now held }
    ensures within { IfSome result (IsFrom held.len text.now) }
{
    let end = end_length(text.split_at(held.len).1)?;
    Some(Held {
        at: held.at,
        count: held.count,
        len: held.len + end,
    })
}

/// The value of the attribute that stands behind these bytes, and then the end of the tag.
pub(crate) fn tag_with(text: &[u8], front: &[u8]) -> Option<Held>
    ensures there { result ≡ tag_with front.now text.now }
    ensures within { IfSome result (IsFrom (length front.now) text.now) }
{
    let held = attribute(text, front)?;
    ended(text, held)
}
