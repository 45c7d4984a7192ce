ghost use Rattle.std.specs.Prelude.{◌≡◌, IfErr, IfOk};
ghost use Rattle.outside.specs.Counts.{NoneFell};
ghost use Rattle.conf_keys.specs.Within.{IsWithin};
ghost use Rattle.conf_sections.specs.Reading.{Answers, HasCause, IsOfItems, Refuses, item_fault};
ghost use Rattle.conf_sections.specs.Reading.{resolved, said, text_name, walk_fault};

use crate::conf::conf_of;
use crate::{Conf, ConfFault, Vars};
use base_fields::{Name, NoMemory};
use conf_items::Place;
use conf_keys::SectionFault;
use conf_walk::{Texts, WalkFault, read_texts};
use outside::Files;
use std::alloc::Global;

fn walk_fault(fault: WalkFault) -> ConfFault
    ensures { result ≡ walk_fault fault }
{
    match fault {
        WalkFault::BadText { name, place } => ConfFault::BadText { name, place },
        WalkFault::Unset { var } => ConfFault::Unset { var },
        WalkFault::DeepInclude { name } => ConfFault::DeepInclude { name },
        WalkFault::TooLong { total } => ConfFault::TooLong { total },
        WalkFault::Missing { name } => ConfFault::Missing { name },
        WalkFault::SourceShort { name, at } => ConfFault::SourceShort { name, at },
        WalkFault::FileFault => ConfFault::FileFault,
        WalkFault::NoMemory => ConfFault::NoMemory,
    }
}

// The name of the text in which a place is.
fn text_name(alloc: Global, names: &[Name], place: Place) -> Result<Name, NoMemory>
    ensures { IfOk result (λ name. name ≡ text_name names.now place) }
{
    match names.get(place.text) {
        Some(name) => Name::of(alloc, name.text()),
        None => Name::of(alloc, ""),
    }
}

// The fault of a key or a value, with the name of its text, or want of memory.
fn item_fault(alloc: Global, names: &[Name], fault: SectionFault) -> ConfFault
    ensures named { Refuses (Err (item_fault names.now fault)) result }
    ensures of_items { IsOfItems result }
{
    match fault {
        SectionFault::UnknownKey { place } => match text_name(alloc, names, place) {
            Ok(name) => ConfFault::UnknownKey {
                name,
                place: place.at,
            },
            Err(NoMemory) => ConfFault::NoMemory,
        },
        SectionFault::BadValue { place } => match text_name(alloc, names, place) {
            Ok(name) => ConfFault::BadValue {
                name,
                place: place.at,
            },
            Err(NoMemory) => ConfFault::NoMemory,
        },
        SectionFault::NoMemory => ConfFault::NoMemory,
    }
}

// What the texts say, whose names go with it or name the place of its fault.
fn said(alloc: Global, texts: Texts) -> Result<Conf, ConfFault>
    ensures answers { Answers (said texts) result }
    ensures of_items { IfErr result IsOfItems }
    ensures within { IfOk result IsWithin }
{
    match conf_of(alloc, texts.items.as_slice()) {
        Ok(mut conf) => {
            conf.texts = texts.names;
            Ok(conf)
        }
        Err(fault) => Err(item_fault(alloc, texts.names.as_slice(), fault)),
    }
}

/// Reads the configuration of that name, with all texts that it includes and with these variables.
/// Takes memory. Every file stays as it is.
pub fn read_conf<F: Files>(
    alloc: Global,
    files: &mut F,
    name: &str,
    vars: &Vars,
) -> Result<Conf, ConfFault>
    ensures none_fell { NoneFell (F.counts files.old) (F.counts files.new) }
    ensures cause { IfErr result (HasCause (F.counts files.old) (F.counts files.new)) }
    ensures same_files { F.file files.new ≡ F.file files.old }
    ensures answers { F.told → Answers (resolved vars.now (F.file files.old) name.now) result }
    // Keys and names are such as the table of keys and the limits allow.
    ensures within { IfOk result IsWithin }
{
    match read_texts(alloc, files, name, vars) {
        Ok(texts) => said(alloc, texts),
        Err(fault) => Err(walk_fault(fault)),
    }
}
