ghost use Rattle.std.specs.Prelude.{◌≡◌, ◌==◌, ◌≤◌, true, codes, length, not, option_copied};
ghost use Rattle.std.specs.List.{prefix_len};
ghost use Rattle.std.specs.Result.{result_copied};
ghost use Rattle.conf_lexer.specs.Text.{begins};
ghost use Rattle.conf_words.specs.Values.{before_brace, default_of, lookup, variable_value};

use crate::values::Vars;
use conf_lexer::name_length;

// The value of the first pair with that name.
fn lookup<'a>(vars: &'a Vars, name: &str) -> Option<&'a str>
    ensures { option_copied result ≡ lookup vars.now name.now }
{
    vars.as_slice()
        .iter()
        .find(|pair| pair.name.text() == name)
        .map(|pair| pair.value.text())
}

// How many bytes stand before the first closing brace.
fn brace_place(text: &[u8]) -> usize
    ensures count { result ≡ prefix_len (λ b. not (b == 125)) text.now }
    ensures within { result ≤ length text.now }
{
    text.iter().take_while(|b| **b != b'}').count()
}

// The text before the first closing brace.
fn until_brace(text: &str) -> &str
    ensures { result.now ≡ before_brace text.now }
{
    text.split_at(brace_place(text.as_bytes())).0
}

// The text in place of a value, of what stands behind a name.
fn default_text(text: &str) -> Option<&str>
    ensures { option_copied result ≡ default_of text.now }
{
    if !text.as_bytes().starts_with(b":-") {
        return None;
    }
    Some(until_brace(text.split_at(2).1))
}

// What the variable at the front stands for, or its name.
pub fn variable_value<'a>(vars: &'a Vars, text: &'a str) -> Result<&'a str, &'a str>
    requires { begins text.now (codes "${") ≡ true }
    ensures { result_copied result ≡ variable_value vars.now text.now }
{
    let body = text.split_at(2).1;
    let (name, rest) = body.split_at(name_length(body.as_bytes()));
    lookup(vars, name).or(default_text(rest)).ok_or(name)
}
