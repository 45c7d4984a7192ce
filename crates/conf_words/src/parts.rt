ghost use Rattle.std.specs.Prelude.{◌≡◌, ◌==◌, ◌≤◌, ◌<◌, ◌-◌, ◌||◌, IsCharBoundary, drop, length, not, slice_index};
ghost use Rattle.std.specs.Prelude.{List as list_of};
ghost use Rattle.std.specs.List.{prefix_len};
ghost use Rattle.std.specs.Result.{result_copied};
ghost use Rattle.base_fields.specs.declared.names.Pair.{Pair};
ghost use Rattle.conf_words.specs.Values.{followed, part_len, part_value, parts_value};

use crate::values::Vars;
use crate::variables::variable_value;
use conf_lexer::variable_length;

/// What stands at the front of a text.
#[derive(Clone, Copy, Debug)]
pub struct Part<'a> {
    /// How many bytes it takes.
    pub len: usize,
    /// What it stands for, or the name that has no value.
    pub value: Result<&'a str, &'a str>,
}

// How many bytes stand before the first dollar or backslash.
fn plain_length(text: &[u8]) -> usize
    ensures count { result ≡ prefix_len (λ b. not (b == 36 || b == 92)) text.now }
    ensures within { result ≤ length text.now }
{
    text.iter()
        .take_while(|b| **b != b'$' && **b != b'\\')
        .count()
}

// The part that begins with a dollar: a variable, or the dollar itself.
fn dollar_part<'a>(vars: &'a Vars, escapes: bool, text: &'a str) -> Part<'a>
    requires some { 0 < length text.now }
    requires dollar { slice_index text.now 0 ≡ 36 }
    ensures len { result.len ≡ part_len escapes text.now }
    ensures value { result_copied result.value ≡ part_value vars.now escapes text.now }
    ensures within { (0 < result.len) × (result.len ≤ length text.now) }
    ensures last { slice_index text.now (result.len - 1) < 128 }
{
    let bytes = text.as_bytes();
    if bytes.starts_with(b"${") {
        if let Some(len) = variable_length(bytes) {
            return Part {
                len,
                value: variable_value(vars, text),
            };
        }
    }
    Part {
        len: 1,
        value: Ok("$"),
    }
}

// The part that begins with a backslash: an escape, or the backslash itself.
fn backslash_part(escapes: bool, text: &str) -> Part<'static>
    requires some { 0 < length text.now }
    requires backslash { slice_index text.now 0 ≡ 92 }
    ensures len { result.len ≡ part_len escapes text.now }
    ensures value { (vars : list_of Pair) → result_copied result.value ≡ part_value vars escapes text.now }
    ensures within { (0 < result.len) × (result.len ≤ length text.now) }
    ensures last { slice_index text.now (result.len - 1) < 128 }
{
    let (len, value) = match text.as_bytes() {
        [_, b'"', ..] if escapes => (2, "\""),
        [_, b'\\', ..] if escapes => (2, "\\"),
        [_, b'n', ..] if escapes => (2, "\n"),
        [_, b't', ..] if escapes => (2, "\t"),
        _ => (1, "\\"),
    };
    Part {
        len,
        value: Ok(value),
    }
}

// What stands at the front: the bytes before a dollar or a backslash, or else one part.
pub fn first_part<'a>(vars: &'a Vars, escapes: bool, text: &'a str) -> Part<'a>
    requires { 0 < length text.now }
    ensures parts { parts_value vars.now escapes 0 text.now ≡ followed (result_copied result.value) (parts_value vars.now escapes 0 (drop result.len text.now)) }
    ensures within { (0 < result.len) × (result.len ≤ length text.now) }
    ensures boundary { IsCharBoundary text.now result.len }
{
    let bytes = text.as_bytes();
    let plain = plain_length(bytes);
    if plain > 0 {
        return Part {
            len: plain,
            value: Ok(text.split_at(plain).0),
        };
    }
    if bytes.starts_with(b"$") {
        dollar_part(vars, escapes, text)
    } else {
        backslash_part(escapes, text)
    }
}
