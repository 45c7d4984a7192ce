ghost use Rattle.std.specs.Prelude.{◌≡◌, ℕ, ◌+◌, ◌*◌, ◌<◌, ◌≤◌, ◌≢◌, true, false, length, take, drop, IfSome, IfNone};
ghost use Rattle.sparse_text.specs.Blocks.{AreWords, HasForm};
ghost use Rattle.sparse_text.specs.declared.runs.Content.TheVariants.{Raw};

use base_fields::get_u32;
use sparse_text::Content;

/// The word that each word of a block is.
fn one_word(bytes: &[u8]) -> Option<u32>
    requires { 4 ≤ length bytes.now }
    ensures some { IfSome result (AreWords bytes.now) }
    ensures none { IfNone result (HasForm bytes.now Raw) }
{
    let word = get_u32(bytes, 0);
    for number in 1..bytes.len() / 4 {
        if get_u32(bytes, 4 * number) != word {
            return None;
        }
    }
    Some(word)
}

/// What a block that isn't don't care is.
fn content_of(bytes: &[u8]) -> Content
    requires { 4 ≤ length bytes.now }
    ensures { HasForm bytes.now result }
{
    match one_word(bytes) {
        Some(word) => Content::Fill { word },
        None => Content::Raw,
    }
}

/// Whether two blocks may be in one run.
pub fn is_same(a: Content, b: Content) -> bool
    ensures yes { result ≡ true → a ≡ b }
    ensures no { result ≡ false → a ≢ b }
{
    match (a, b) {
        (Content::Skip, Content::Skip) | (Content::Raw, Content::Raw) => true,
        (Content::Fill { word }, Content::Fill { word: other }) => word == other,
        _ => false,
    }
}

/// The block of a number, counted from 0, of whole blocks.
fn nth_block(window: &[u8], number: u32, block: u32) -> &[u8]
    requires { number * block + block ≤ length window.now }
    ensures { result.now ≡ take block (drop (number * block) window.now) }
{
    let at = number as usize * block as usize;
    &window[at..at + block as usize]
}

/// What the first of these blocks is, none of which is don't care, and how many of them from there on are the same.
pub fn first_run(window: &[u8], blocks: u32, block: u32) -> (Content, u32)
    requires block { 4 ≤ block }
    requires some { 0 < blocks }
    requires whole { length window.now ≡ blocks * block }
    ensures some { 0 < result.1 }
    ensures within { result.1 ≤ blocks }
    ensures alike { (i : ℕ) → i < result.1 → HasForm (take block (drop (i * block) window.now)) result.0 }
{
    let content = content_of(nth_block(window, 0, block));
    for number in 1..blocks {
        if !is_same(content_of(nth_block(window, number, block)), content) {
            return (content, number);
        }
    }
    (content, blocks)
}
