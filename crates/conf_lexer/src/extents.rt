ghost use Rattle.std.specs.Prelude.{◌≡◌, ◌+◌, ◌≤◌, ◌<◌, false, length, not, ◌==◌, IfSome};
ghost use Rattle.std.specs.List.{prefix_len};
ghost use Rattle.conf_lexer.specs.Text.{at_quote, behind_double, body_len, ends_word, escape_len, is_quotable, pair_part, quoted_part, through_comment, word_len, word_part};

use crate::marks::word_ends;
use crate::variables::variable_length;

// How many bytes stand before the end of the line.
pub fn line_length(text: &[u8]) -> usize
    ensures count { result ≡ prefix_len (λ b. not (b == 10)) text.now }
    ensures within { result ≤ length text.now }
{
    text.iter().take_while(|b| **b != b'\n').count()
}

// The length through the first end of a comment.
pub fn comment_length(text: &[u8]) -> Option<usize>
    ensures there { result ≡ through_comment text.now }
    ensures within { IfSome result (λ n. n ≤ length text.now) }
{
    let mut at = 0;
    let mut rest = text;
    while let [_, tail @ ..] = rest {
        if rest.starts_with(b"*/") {
            return Some(at + 2);
        }
        at += 1;
        rest = tail;
    }
    None
}

// How many bytes the byte at the front takes: a backslash takes the next one with it.
fn pair_length(text: &[u8]) -> Option<usize>
    requires { 0 < length text.now }
    ensures there { result ≡ pair_part text.now }
    ensures within { IfSome result (λ n. (0 < n) × (n ≤ length text.now)) }
{
    if !text.starts_with(b"\\") {
        return Some(1);
    }
    if text.len() < 2 { None } else { Some(2) }
}

// Whether a double quote stands at the front.
fn quote_stands(text: &[u8]) -> bool
    ensures { result ≡ at_quote text.now }
{
    text.starts_with(b"\"")
}

// How many bytes stand before the first double quote that isn't escaped.
fn body_length(text: &[u8]) -> Option<usize>
    ensures there { result ≡ body_len text.now }
    ensures within { IfSome result (λ n. n ≤ length text.now) }
{
    let mut at = 0;
    let mut rest = text;
    while !rest.is_empty() && !quote_stands(rest) {
        let part = pair_length(rest)?;
        at += part;
        rest = rest.split_at(part).1;
    }
    Some(at)
}

// The length of the escape whose backslash is before this text.
fn escape_length(text: &[u8]) -> Option<usize>
    ensures there { result ≡ escape_len text.now }
    ensures within { IfSome result (λ n. (0 < n) × (n ≤ length text.now + 1)) }
{
    match text {
        [b'"' | b'\\' | b'n' | b't', ..] => Some(2),
        _ => None,
    }
}

// The length of the part of a bare word at the front.
fn word_part_length(text: &[u8]) -> Option<usize>
    requires { 0 < length text.now }
    ensures there { result ≡ word_part text.now }
    ensures within { IfSome result (λ n. (0 < n) × (n ≤ length text.now)) }
{
    if text.starts_with(b"${") {
        return variable_length(text);
    }
    Some(1)
}

// The length of the part of a double-quoted text at the front.
fn quoted_part_length(text: &[u8]) -> Option<usize>
    requires { 0 < length text.now }
    ensures there { result ≡ quoted_part text.now }
    ensures within { IfSome result (λ n. (0 < n) × (n ≤ length text.now)) }
{
    if text.starts_with(b"\\") {
        return escape_length(text.split_at(1).1);
    }
    word_part_length(text)
}

// The length of the bare word at the front.
pub fn word_length(text: &[u8]) -> Option<usize>
    requires { ends_word text.now ≡ false }
    ensures there { result ≡ word_len text.now }
    ensures within { IfSome result (λ n. (0 < n) × (n ≤ length text.now)) }
{
    let mut at = 0;
    let mut rest = text;
    while !word_ends(rest) {
        let part = word_part_length(rest)?;
        at += part;
        rest = rest.split_at(part).1;
    }
    Some(at)
}

// Whether a body between double quotes is made of parts.
fn quotable(body: &[u8]) -> bool
    ensures { result ≡ is_quotable body.now }
{
    let mut rest = body;
    while !rest.is_empty() {
        let Some(part) = quoted_part_length(rest) else {
            return false
        };
        rest = rest.split_at(part).1;
    }
    true
}

// The length of what belongs behind a double quote: the body and its quote.
pub fn double_length(text: &[u8]) -> Option<usize>
    ensures there { result ≡ behind_double text.now }
    ensures within { IfSome result (λ n. n ≤ length text.now) }
{
    let (body, rest) = text.split_at(body_length(text)?);
    if quote_stands(rest) && quotable(body) {
        Some(body.len() + 1)
    } else {
        None
    }
}
