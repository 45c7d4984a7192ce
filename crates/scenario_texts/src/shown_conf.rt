//! How a configuration is shown: each key that has another value than its default.
use crate::shown_graph::{kind_word, put_named};
use base_fields::{Name, TableKind};
use conf_sections::{Conf, ConfFault, FlashSection, HdKeys, Hole, ImageSection, PartitionSection};
use std::fmt;

/// 0FC63DAF-8483-4772-8E79-3D69D8477DE4, the type of a partition that has no other.
const LINUX: [u8; 16] = [
    0x0F, 0xC6, 0x3D, 0xAF, 0x84, 0x83, 0x47, 0x72, 0x8E, 0x79, 0x3D, 0x69, 0xD8, 0x47, 0x7D, 0xE4,
];

/// The most holes that are shown themselves.
const SHOWN_HOLES: usize = 2;

/// What a configuration says, in words with a blank before each. The names of its texts are shown where there are
/// several.
#[derive(Clone, Copy, Debug)]
pub struct ShownConf<'a>(pub &'a Conf);

impl fmt::Display for ShownConf<'_> {
    fn fmt<W: fmt::Write>(&self, f: &mut fmt::Formatter<W>) -> fmt::Result {
        put_path(f, " input", &self.0.input)?;
        put_path(f, " output", &self.0.output)?;
        for flash in self.0.flashes.as_slice() {
            put_flash(f, flash)?;
        }
        for image in self.0.images.as_slice() {
            put_image(f, image)?;
        }
        put_texts(f, self.0.texts.as_slice())
    }
}

fn put_path<W: fmt::Write>(f: &mut fmt::Formatter<W>, key: &str, path: &Name) -> fmt::Result {
    if path.text().is_empty() {
        return Ok(());
    }
    put_named(f, key, path)
}

fn put_texts<W: fmt::Write>(f: &mut fmt::Formatter<W>, texts: &[Name]) -> fmt::Result {
    if texts.len() == 1 {
        return Ok(());
    }
    f.write_str(" texts")?;
    for text in texts {
        put_word(f, text.text())?;
    }
    Ok(())
}

fn put_word<W: fmt::Write>(f: &mut fmt::Formatter<W>, word: &str) -> fmt::Result {
    f.write_str(" ")?;
    f.write_str(word)
}

fn put_flag<W: fmt::Write>(f: &mut fmt::Formatter<W>, word: &str, flag: bool) -> fmt::Result {
    if flag { put_word(f, word) } else { Ok(()) }
}

fn put_number<W: fmt::Write>(
    f: &mut fmt::Formatter<W>,
    key: &str,
    number: Option<u64>,
) -> fmt::Result {
    match number {
        Some(number) => write!(f, " {key}={number}"),
        None => Ok(()),
    }
}

/// A number that isn't the default.
fn put_other<W: fmt::Write>(
    f: &mut fmt::Formatter<W>,
    key: &str,
    number: u64,
    default: u64,
) -> fmt::Result {
    if number == default {
        return Ok(());
    }
    put_number(f, key, Some(number))
}

fn put_name<W: fmt::Write>(
    f: &mut fmt::Formatter<W>,
    key: &str,
    name: &Option<Name>,
) -> fmt::Result {
    match name {
        Some(name) => put_named(f, key, name),
        None => Ok(()),
    }
}

fn put_id<W: fmt::Write>(f: &mut fmt::Formatter<W>, key: &str, id: &[u8; 16]) -> fmt::Result {
    write!(f, " {key}=")?;
    for byte in id {
        write!(f, "{byte:02x}")?;
    }
    Ok(())
}

fn put_flash<W: fmt::Write>(f: &mut fmt::Formatter<W>, flash: &FlashSection) -> fmt::Result {
    put_word(f, "flash")?;
    put_word(f, flash.name.text())?;
    let pebsize = flash.pebsize;
    let numpebs = flash.numpebs;
    write!(f, " {pebsize}*{numpebs}")
}

fn put_image<W: fmt::Write>(f: &mut fmt::Formatter<W>, image: &ImageSection) -> fmt::Result {
    put_word(f, "image")?;
    put_word(f, image.name.text())?;
    for kind in image.kinds.as_slice() {
        put_word(f, kind_word(*kind))?;
    }
    put_number(f, "size", image.size)?;
    put_name(f, " flashtype", &image.flashtype)?;
    put_hd(f, &image.hd)?;
    put_name(f, " of", &image.sparse.image)?;
    put_other(f, "block", u64::from(image.sparse.block_size), 4096)?;
    put_name(f, " name", &image.plain.name)?;
    for part in image.parts.as_slice() {
        put_part(f, part)?;
    }
    Ok(())
}

fn put_table<W: fmt::Write>(f: &mut fmt::Formatter<W>, table: TableKind) -> fmt::Result {
    match table {
        TableKind::Bare => f.write_str(" table=none"),
        TableKind::Mbr => Ok(()),
        TableKind::Gpt => f.write_str(" table=gpt"),
        TableKind::Hybrid => f.write_str(" table=hybrid"),
    }
}

fn put_hd<W: fmt::Write>(f: &mut fmt::Formatter<W>, keys: &HdKeys) -> fmt::Result {
    put_number(f, "align", keys.align)?;
    put_table(f, keys.partition_table_type)?;
    put_other(f, "extended", u64::from(keys.extended_partition), 0)?;
    put_other(f, "signature", u64::from(keys.disk_signature), 0)?;
    if let Some(id) = &keys.disk_uuid {
        put_id(f, "uuid", id)?;
    }
    put_other(f, "location", keys.gpt_location, 1024)?;
    put_flag(f, "no-backup", keys.gpt_no_backup)?;
    put_flag(f, "fill", keys.fill)?;
    put_other(f, "sector", u64::from(keys.sector_size), 512)
}

fn put_part<W: fmt::Write>(f: &mut fmt::Formatter<W>, part: &PartitionSection) -> fmt::Result {
    put_word(f, "/")?;
    put_word(f, part.name.text())?;
    put_number(f, "offset", part.offset)?;
    put_number(f, "size", part.size)?;
    put_number(f, "align", part.align)?;
    put_name(f, " image", &part.image)?;
    put_flags(f, part)?;
    put_number(f, "type", part.partition_type.map(u64::from))?;
    if let Some(id) = &part.partition_uuid {
        put_id(f, "uuid", id)?;
    }
    if part.partition_type_uuid != LINUX {
        put_id(f, "kind", &part.partition_type_uuid)?;
    }
    put_holes(f, part.holes.as_slice())
}

fn put_flags<W: fmt::Write>(f: &mut fmt::Formatter<W>, part: &PartitionSection) -> fmt::Result {
    put_flag(f, "fill", part.fill)?;
    put_flag(f, "autoresize", part.autoresize)?;
    put_flag(f, "bootable", part.bootable)?;
    put_flag(f, "read-only", part.read_only)?;
    put_flag(f, "hidden", part.hidden)?;
    put_flag(f, "no-automount", part.no_automount)?;
    put_flag(f, "apart", !part.in_partition_table)
}

fn put_holes<W: fmt::Write>(f: &mut fmt::Formatter<W>, holes: &[Hole]) -> fmt::Result {
    put_other(f, "holes", holes.len() as u64, 0)?;
    if holes.len() > SHOWN_HOLES {
        return Ok(());
    }
    for hole in holes {
        let from = hole.from;
        let to = hole.to;
        write!(f, " ({from};{to})")?;
    }
    Ok(())
}

/// Why a configuration was not read.
#[derive(Clone, Copy, Debug)]
pub struct ShownFault<'a>(pub &'a ConfFault);

impl fmt::Display for ShownFault<'_> {
    fn fmt<W: fmt::Write>(&self, f: &mut fmt::Formatter<W>) -> fmt::Result {
        match self.0 {
            ConfFault::BadText { name, place } => put_placed(f, "BadText", name, *place),
            ConfFault::UnknownKey { name, place } => put_placed(f, "UnknownKey", name, *place),
            ConfFault::BadValue { name, place } => put_placed(f, "BadValue", name, *place),
            ConfFault::Unset { var } => put_named(f, "Unset var", var),
            ConfFault::DeepInclude { name } => put_named(f, "DeepInclude name", name),
            ConfFault::TooLong { total } => write!(f, "TooLong total={total}"),
            ConfFault::Missing { name } => put_named(f, "Missing name", name),
            ConfFault::SourceShort { name, at } => {
                put_named(f, "SourceShort name", name)?;
                write!(f, " at={at}")
            }
            ConfFault::FileFault => f.write_str("FileFault"),
            ConfFault::NoMemory => f.write_str("NoMemory"),
        }
    }
}

/// A fault with its name and place.
pub fn put_placed<W: fmt::Write>(
    f: &mut fmt::Formatter<W>,
    fault: &str,
    name: &Name,
    place: u64,
) -> fmt::Result {
    f.write_str(fault)?;
    put_named(f, " name", name)?;
    write!(f, " place={place}")
}
