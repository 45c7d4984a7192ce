//! White space, and where things end.
ghost use Rattle.std.specs.Prelude.{◌≡◌, ◌+◌, ◌<◌, ◌≤◌, IfSome, length, not, ◌==◌, reverse};
ghost use Rattle.std.specs.List.{position, prefix_len};
ghost use Rattle.bmap_grammar.specs.Text.{end_len, framed, inside_len, is_space, spaces, spaces_behind, tag_len, through};

fn is_space(b: u8) -> bool
    ensures { result ≡ is_space b }
{
    matches!(b, b' ' | b'\t' | b'\n' | b'\r')
}

/// How much white space stands at the front.
pub(crate) fn spaces(text: &[u8]) -> usize
    ensures count { result ≡ spaces text.now }
    ensures within { result ≤ length text.now }
{
    text.iter().take_while(|b| is_space(**b)).count()
}

/// How much white space stands at the end.
pub(crate) fn spaces_behind(text: &[u8]) -> usize
    ensures count { result ≡ spaces_behind text.now }
    ensures within { result ≤ length text.now }
{
    text.iter().rev().take_while(|b| is_space(**b)).count()
}

/// How many bytes stand before the next `<`.
pub(crate) fn inside_length(text: &[u8]) -> usize
    ensures count { result ≡ inside_len text.now }
    ensures within { result ≤ length text.now }
{
    text.iter().take_while(|b| **b != b'<').count()
}

/// Where the first such byte stands.
pub(crate) fn first_place(text: &[u8], byte: u8) -> Option<usize>
    ensures there { result ≡ position (λ b. b == byte) text.now }
    ensures within { IfSome result (λ n. n < length text.now) }
{
    text.iter().position(|b| *b == byte)
}

/// The length through the first place where these bytes stand.
fn length_through(text: &[u8], end: &[u8]) -> Option<usize>
    ensures there { result ≡ through end.now text.now }
    ensures within { IfSome result (λ n. n ≤ length text.now) }
{
    let mut at = 0;
    let mut rest = text;
    while let [_, tail @ ..] = rest {
        if rest.starts_with(end) {
            return Some(at + end.len());
        }
        at += 1;
        rest = tail;
    }
    None
}

/// The length of what begins with these bytes, through the next place where the others stand.
pub(crate) fn framed_length(text: &[u8], front: &[u8], end: &[u8]) -> Option<usize>
    ensures there { result ≡ framed front.now end.now text.now }
    ensures within { IfSome result (λ n. (length front.now ≤ n) × (n ≤ length text.now)) }
{
    if !text.starts_with(front) {
        return None;
    }
    Some(front.len() + length_through(text.split_at(front.len()).1, end)?)
}

/// The length of white space and `>`.
pub(crate) fn end_length(text: &[u8]) -> Option<usize>
    ensures there { result ≡ end_len text.now }
    ensures within { IfSome result (λ n. n ≤ length text.now) }
{
    let space = spaces(text);
    if text.split_at(space).1.starts_with(b">") {
        Some(space + 1)
    } else {
        None
    }
}

/// The length of the tag without attributes that begins with these bytes.
pub(crate) fn tag_length(text: &[u8], front: &[u8]) -> Option<usize>
    ensures there { result ≡ tag_len front.now text.now }
    ensures within { IfSome result (λ n. (length front.now ≤ n) × (n ≤ length text.now)) }
{
    if !text.starts_with(front) {
        return None;
    }
    Some(front.len() + end_length(text.split_at(front.len()).1)?)
}
