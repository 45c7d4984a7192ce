ghost use Rattle.std.specs.Prelude.{◌≡◌, ◌==◌, ◌≤◌, ◌<◌, length, IfSome};
ghost use Rattle.std.specs.List.{position, prefix_len};
ghost use Rattle.conf_lexer.specs.Text.{behind_dollar, behind_name, is_name_byte, name_len, through, variable_len};

use crate::marks::{begins_name, continues_name};

// Where the first such byte stands.
fn first_place(text: &[u8], byte: u8) -> Option<usize>
    ensures there { result ≡ position (λ c. c == byte) text.now }
    ensures within { IfSome result (λ n. n < length text.now) }
{
    text.iter().position(|b| *b == byte)
}

// The length through the first such byte.
pub fn length_through(text: &[u8], byte: u8) -> Option<usize>
    ensures there { result ≡ through byte text.now }
    ensures within { IfSome result (λ n. n ≤ length text.now) }
{
    Some(1 + first_place(text, byte)?)
}

// How many bytes of a name stand at the front.
fn name_bytes(text: &[u8]) -> usize
    ensures count { result ≡ prefix_len is_name_byte text.now }
    ensures within { result ≤ length text.now }
{
    text.iter().take_while(|b| continues_name(**b)).count()
}

/// How many bytes the name at the front has, 0 where there is none.
pub fn name_length(text: &[u8]) -> usize
    ensures count { result ≡ name_len text.now }
    ensures within { result ≤ length text.now }
{
    match text {
        [first, ..] if begins_name(*first) => name_bytes(text),
        _ => 0,
    }
}

// The length of what belongs behind a name.
fn end_length(text: &[u8]) -> Option<usize>
    ensures there { result ≡ behind_name text.now }
    ensures within { IfSome result (λ n. n ≤ length text.now) }
{
    if text.starts_with(b"}") {
        return Some(1);
    }
    if !text.starts_with(b":-") {
        return None;
    }
    Some(2 + length_through(text.split_at(2).1, b'}')?)
}

// The length of what belongs behind `${`.
fn body_length(text: &[u8]) -> Option<usize>
    ensures there { result ≡ behind_dollar text.now }
    ensures within { IfSome result (λ n. n ≤ length text.now) }
{
    let name = name_length(text);
    if name == 0 {
        return None;
    }
    Some(name + end_length(text.split_at(name).1)?)
}

/// How many bytes the variable at the front has, of a text that begins with `${`; `None` where there is none.
pub fn variable_length(text: &[u8]) -> Option<usize>
    requires { 2 ≤ length text.now }
    ensures there { result ≡ variable_len text.now }
    ensures within { IfSome result (λ n. (0 < n) × (n ≤ length text.now)) }
{
    Some(2 + body_length(text.split_at(2).1)?)
}
