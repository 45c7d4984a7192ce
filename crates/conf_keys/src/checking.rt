//! The first item of a section that has another key or value.
ghost use Rattle.std.specs.Prelude.{◌≡◌, List, filter, length};
ghost use Rattle.conf_values.specs.declared.values.Hole.{Hole};
ghost use Rattle.conf_keys.specs.Checking.{first_fault, first_top_fault, held, inside_fault};
ghost use Rattle.conf_keys.specs.Checking.{is_hole, item_fault, listed_fault, one_fault};
ghost use Rattle.conf_keys.specs.Checking.{setting_fault, shaped_fault, top_fault, value_place};
ghost use Rattle.conf_keys.specs.Checking.{word_fault, words_fault};
ghost use Rattle.conf_keys.specs.Holes.{with_item, with_setting};

use crate::settings::{Section, Shape};
use base_fields::NoMemory;
use conf_items::{Given, Head, InnerItem, Place, SectionItem, Setting, Value, Word};
use std::error::Error;
use std::fmt;

/// Why a section was not read. A place is that of the key or of the value.
#[derive(Clone, Copy, Debug, PartialEq, Eq)]
pub enum SectionFault {
    /// The section has no such key, or a section stands where none may.
    UnknownKey { place: Place },
    /// The value is none that the key may have, or a key that it needs is lacking.
    BadValue { place: Place },
    /// Memory was refused.
    NoMemory,
}

impl From<NoMemory> for SectionFault {
    ghost use Rattle.std.specs.Prelude.{◌≡◌};
    ghost use Rattle.conf_keys.specs.declared.checking.SectionFault.TheVariants.{NoMemory};

    ghost from_gives = { λ _ e. e ≡ NoMemory };

    fn from(_: NoMemory) -> SectionFault {
        SectionFault::NoMemory
    }
}

impl fmt::Display for SectionFault {
    fn fmt<W: fmt::Write>(&self, f: &mut fmt::Formatter<W>) -> fmt::Result {
        f.write_str(match self {
            SectionFault::UnknownKey { .. } => "unknown key",
            SectionFault::BadValue { .. } => "bad value",
            SectionFault::NoMemory => "out of memory",
        })
    }
}

impl Error for SectionFault {}

/// The greatest number of holes of a partition.
const MOST_HOLES: usize = 64;

// Where a value begins.
fn value_place(value: &Value) -> Place
    ensures { result ≡ value_place value.now }
{
    match value {
        Value::One(word) => word.place,
        Value::Many(place, _) => *place,
    }
}

fn is_hole(word: &Word) -> bool
    ensures { result ≡ is_hole word.now }
{
    conf_values::hole_of(word.text.text().as_bytes()).is_some()
}

// The fault of a word in a list of holes, in front of which there are so many holes.
fn word_fault(before: usize, word: &Word) -> Option<SectionFault>
    ensures { result ≡ word_fault before word.now }
{
    if is_hole(word) && before < MOST_HOLES {
        None
    } else {
        Some(SectionFault::BadValue { place: word.place })
    }
}

fn words_fault(before: usize, words: &[Word]) -> Option<SectionFault>
    ensures { result ≡ words_fault before words.now }
{
    let mut count = before;
    for word in words {
        if let Some(fault) = word_fault(count, word) {
            return Some(fault);
        }
        count += 1;
    }
    None
}

fn listed_fault(before: usize, value: &Value) -> Option<SectionFault>
    ensures { result ≡ listed_fault before value.now }
{
    match value {
        Value::One(word) => Some(SectionFault::BadValue { place: word.place }),
        Value::Many(_, words) => words_fault(before, words.as_slice()),
    }
}

// Where a key with single values is given another than it may have.
fn one_fault(shape: Shape, given: &Given) -> Option<SectionFault>
    ensures { result ≡ one_fault shape given.now }
{
    match given {
        Given::Set(Value::One(word)) if shape.fits(word.text.text()) => None,
        Given::Set(value) | Given::Added(value) => Some(SectionFault::BadValue {
            place: value_place(value),
        }),
    }
}

fn shaped_fault(shape: Shape, before: usize, given: &Given) -> Option<SectionFault>
    ensures { result ≡ shaped_fault before shape given.now }
{
    match (shape, given) {
        (Shape::Anything, _) => None,
        (Shape::Holes, Given::Set(value)) => listed_fault(0, value),
        (Shape::Holes, Given::Added(value)) => listed_fault(before, value),
        _ => one_fault(shape, given),
    }
}

/// The fault of a key, in front of which there are so many holes.
pub(crate) fn setting_fault(
    section: Section,
    before: usize,
    setting: &Setting,
) -> Option<SectionFault>
    ensures { result ≡ setting_fault section before setting.now }
{
    let place = setting.key.place;
    match section.shape(setting.key.text.text()) {
        Some(shape) => shaped_fault(shape, before, &setting.given),
        None => Some(SectionFault::UnknownKey { place }),
    }
}

// The fault of a section inside, where none may stand.
fn inside_fault(section: Section, head: &Head) -> Option<SectionFault>
    ensures { result ≡ inside_fault section head.now }
{
    if section.takes_sections() {
        None
    } else {
        Some(SectionFault::UnknownKey {
            place: head.word.place,
        })
    }
}

fn item_fault(section: Section, before: usize, item: &InnerItem) -> Option<SectionFault>
    ensures { result ≡ item_fault section before item.now }
{
    match item {
        InnerItem::Key(setting) => setting_fault(section, before, setting),
        InnerItem::Section(head) => inside_fault(section, head),
    }
}

fn holes_among(words: &[Word]) -> usize
    ensures { result ≡ length (filter is_hole words.now) }
{
    words.iter().filter(|word| is_hole(word)).count()
}

// How many holes there are behind a key, where there were so many before, as far as a usize
// holds them.
fn holes_behind(before: usize, setting: &Setting) -> usize
    ensures { (had : List Hole) → before ≡ held had → result ≡ held (with_setting had setting.now) }
{
    if setting.key.text.text() != "holes" {
        return before;
    }
    match &setting.given {
        Given::Set(Value::Many(_, words)) => holes_among(words.as_slice()),
        Given::Added(Value::Many(_, words)) => {
            before.saturating_add(holes_among(words.as_slice()))
        }
        _ => before,
    }
}

fn holes_past(before: usize, item: &InnerItem) -> usize
    ensures { (had : List Hole) → before ≡ held had → result ≡ held (with_item had item.now) }
{
    match item {
        InnerItem::Key(setting) => holes_behind(before, setting),
        InnerItem::Section(_) => before,
    }
}

/// The first fault of the items of a section that stands in another.
pub(crate) fn first_fault(section: Section, items: &[InnerItem]) -> Option<SectionFault>
    ensures { result ≡ first_fault section items.now }
{
    let mut before = 0;
    for item in items {
        if let Some(fault) = item_fault(section, before, item) {
            return Some(fault);
        }
        before = holes_past(before, item);
    }
    None
}

// ---- a section at the top, where no key has holes

fn top_fault(section: Section, item: &SectionItem) -> Option<SectionFault>
    ensures { result ≡ top_fault section item.now }
{
    match item {
        SectionItem::Key(setting) => setting_fault(section, 0, setting),
        SectionItem::Section(inner) => inside_fault(section, &inner.head),
    }
}

/// The first fault of the items of a section at the top.
pub(crate) fn first_top_fault(section: Section, items: &[SectionItem]) -> Option<SectionFault>
    ensures { result ≡ first_top_fault section items.now }
{
    for item in items {
        if let Some(fault) = top_fault(section, item) {
            return Some(fault);
        }
    }
    None
}
