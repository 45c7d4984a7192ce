//! The keys among the items of a section. A section inside is never a key, whatever its word.
ghost use Rattle.std.specs.Prelude.{◌≡◌, find, option_and_then, option_copied, reverse};
ghost use Rattle.conf_keys.specs.Items.{inner_key, inner_keys, is_named, top_key, top_keys};
ghost use Rattle.conf_keys.specs.Settings.{has_key, last_of, last_text, text_of};

use conf_items::{Given, InnerItem, SectionItem, Setting, Value};

fn has_key(setting: &Setting, name: &str) -> bool
    ensures { result ≡ has_key name.now setting.now }
{
    setting.key.text.text() == name
}

// The text that a key is given, where it is a single value behind `=`.
fn text_of(setting: &Setting) -> Option<&str>
    ensures { option_copied result ≡ text_of setting.now }
{
    match &setting.given {
        Given::Set(Value::One(word)) => Some(word.text.text()),
        _ => None,
    }
}

// ---- a section that stands in another

fn is_inner_key(item: &InnerItem, name: &str) -> bool
    ensures { result ≡ is_named name.now (inner_key item.now) }
{
    match item {
        InnerItem::Key(setting) => has_key(setting, name),
        InnerItem::Section(_) => false,
    }
}

fn last_item<'a>(items: &'a [InnerItem], name: &str) -> Option<&'a InnerItem>
    ensures { option_copied result
        ≡ find (λ item. is_named name.now (inner_key item)) (reverse items.now) }
{
    items.iter().rev().find(|item| is_inner_key(item, name))
}

fn key_in(item: Option<&InnerItem>) -> Option<&Setting>
    ensures { option_copied result ≡ option_and_then inner_key (option_copied item.entry) }
{
    match item {
        Some(InnerItem::Key(setting)) => Some(setting),
        Some(InnerItem::Section(_)) | None => None,
    }
}

/// The last key of that name.
pub(crate) fn last<'a>(items: &'a [InnerItem], name: &str) -> Option<&'a Setting>
    ensures { option_copied result ≡ last_of name.now (inner_keys items.now) }
{
    key_in(last_item(items, name))
}

/// The text of the last key of that name, where it is a single value behind `=`.
pub(crate) fn last_text<'a>(items: &'a [InnerItem], name: &str) -> Option<&'a str>
    ensures { option_copied result ≡ last_text name.now (inner_keys items.now) }
{
    text_of(last(items, name)?)
}

// ---- a section at the top

fn is_top_key(item: &SectionItem, name: &str) -> bool
    ensures { result ≡ is_named name.now (top_key item.now) }
{
    match item {
        SectionItem::Key(setting) => has_key(setting, name),
        SectionItem::Section(_) => false,
    }
}

fn last_top_item<'a>(items: &'a [SectionItem], name: &str) -> Option<&'a SectionItem>
    ensures { option_copied result
        ≡ find (λ item. is_named name.now (top_key item)) (reverse items.now) }
{
    items.iter().rev().find(|item| is_top_key(item, name))
}

fn top_key_in(item: Option<&SectionItem>) -> Option<&Setting>
    ensures { option_copied result ≡ option_and_then top_key (option_copied item.entry) }
{
    match item {
        Some(SectionItem::Key(setting)) => Some(setting),
        Some(SectionItem::Section(_)) | None => None,
    }
}

/// The last key of that name.
pub(crate) fn last_top<'a>(items: &'a [SectionItem], name: &str) -> Option<&'a Setting>
    ensures { option_copied result ≡ last_of name.now (top_keys items.now) }
{
    top_key_in(last_top_item(items, name))
}

/// The text of the last key of that name, where it is a single value behind `=`.
pub(crate) fn last_top_text<'a>(items: &'a [SectionItem], name: &str) -> Option<&'a str>
    ensures { option_copied result ≡ last_text name.now (top_keys items.now) }
{
    text_of(last_top(items, name)?)
}
