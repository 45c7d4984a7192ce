//! How the items of a configuration's texts are shown, each word with its place.
use crate::shown_conf::put_placed;
use crate::shown_graph::put_named;
use conf_items::{Given, Head, InnerItem, Place, SectionItem, Setting, TopItem, Value, Word};
use conf_walk::{Texts, WalkFault};
use std::fmt;

/// The items in order, in words with a blank before each. A word is followed by the number of its text and its place
/// in it.
#[derive(Clone, Copy, Debug)]
pub struct ShownItems<'a>(pub &'a Texts);

impl fmt::Display for ShownItems<'_> {
    fn fmt<W: fmt::Write>(&self, f: &mut fmt::Formatter<W>) -> fmt::Result {
        for item in self.0.items.as_slice() {
            match item {
                TopItem::Setting(setting) => put_setting(f, setting)?,
                TopItem::Section(section) => {
                    put_head(f, &section.head)?;
                    put_items(f, section.items.as_slice())?;
                }
            }
        }
        Ok(())
    }
}

fn put_place<W: fmt::Write>(f: &mut fmt::Formatter<W>, place: Place) -> fmt::Result {
    let text = place.text;
    let at = place.at;
    write!(f, "@{text}:{at}")
}

fn put_word<W: fmt::Write>(f: &mut fmt::Formatter<W>, word: &Word) -> fmt::Result {
    f.write_str(" ")?;
    f.write_str(word.text.text())?;
    put_place(f, word.place)
}

fn put_head<W: fmt::Write>(f: &mut fmt::Formatter<W>, head: &Head) -> fmt::Result {
    put_word(f, &head.word)?;
    match &head.name {
        Some(name) => put_word(f, name),
        None => Ok(()),
    }
}

fn put_setting<W: fmt::Write>(f: &mut fmt::Formatter<W>, setting: &Setting) -> fmt::Result {
    put_word(f, &setting.key)?;
    match &setting.given {
        Given::Set(value) => {
            f.write_str(" =")?;
            put_value(f, value)
        }
        Given::Added(value) => {
            f.write_str(" +=")?;
            put_value(f, value)
        }
    }
}

fn put_value<W: fmt::Write>(f: &mut fmt::Formatter<W>, value: &Value) -> fmt::Result {
    match value {
        Value::One(word) => put_word(f, word),
        Value::Many(place, words) => {
            f.write_str(" {")?;
            put_place(f, *place)?;
            for word in words.as_slice() {
                put_word(f, word)?;
            }
            f.write_str(" }")
        }
    }
}

/// The items of a section at the top.
fn put_items<W: fmt::Write>(f: &mut fmt::Formatter<W>, items: &[SectionItem]) -> fmt::Result {
    f.write_str(" {")?;
    for item in items {
        match item {
            SectionItem::Key(setting) => put_setting(f, setting)?,
            SectionItem::Section(section) => {
                put_head(f, &section.head)?;
                put_inner(f, section.items.as_slice())?;
            }
        }
    }
    f.write_str(" }")
}

/// The items of a section in a section. What stands in theirs isn't kept.
fn put_inner<W: fmt::Write>(f: &mut fmt::Formatter<W>, items: &[InnerItem]) -> fmt::Result {
    f.write_str(" {")?;
    for item in items {
        match item {
            InnerItem::Key(setting) => put_setting(f, setting)?,
            InnerItem::Section(head) => {
                put_head(f, head)?;
                f.write_str(" {}")?;
            }
        }
    }
    f.write_str(" }")
}

/// Why the texts were not read.
#[derive(Clone, Copy, Debug)]
pub struct ShownStop<'a>(pub &'a WalkFault);

impl fmt::Display for ShownStop<'_> {
    fn fmt<W: fmt::Write>(&self, f: &mut fmt::Formatter<W>) -> fmt::Result {
        match self.0 {
            WalkFault::BadText { name, place } => put_placed(f, "BadText", name, *place),
            WalkFault::Unset { var } => put_named(f, "Unset var", var),
            WalkFault::DeepInclude { name } => put_named(f, "DeepInclude name", name),
            WalkFault::TooLong { total } => write!(f, "TooLong total={total}"),
            WalkFault::Missing { name } => put_named(f, "Missing name", name),
            WalkFault::SourceShort { name, at } => {
                put_named(f, "SourceShort name", name)?;
                write!(f, " at={at}")
            }
            WalkFault::FileFault => f.write_str("FileFault"),
            WalkFault::NoMemory => f.write_str("NoMemory"),
        }
    }
}
