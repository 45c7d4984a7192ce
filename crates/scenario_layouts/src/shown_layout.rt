//! How a layout is shown.
use base_fields::TableKind;
use extended_chain::LogicalSpec;
use gpt_table::{GptEntry, GptSpec};
use image_layout::{Layout, Placed};
use mbr_table::{MbrEntry, MbrSpec};
use std::fmt;

/// A layout, every field of it.
#[derive(Clone, Copy, Debug)]
pub struct ShownLayout<'a>(pub &'a Layout);

impl fmt::Display for ShownLayout<'_> {
    fn fmt<W: fmt::Write>(&self, f: &mut fmt::Formatter<W>) -> fmt::Result {
        put_head(f, self.0)?;
        if let Some(mbr) = &self.0.mbr {
            put_record(f, mbr)?;
        }
        put_entries(f, "hybrid", self.0.hybrid.as_slice())?;
        put_logical(f, self.0.logical.as_slice())?;
        if let Some(gpt) = &self.0.gpt {
            put_gpt(f, gpt)?;
        }
        put_parts(f, self.0.parts.as_slice())
    }
}

fn put_head<W: fmt::Write>(f: &mut fmt::Formatter<W>, layout: &Layout) -> fmt::Result {
    f.write_str(layout.file.text())?;
    f.write_str(match layout.table {
        TableKind::Bare => " none",
        TableKind::Mbr => " mbr",
        TableKind::Gpt => " gpt",
        TableKind::Hybrid => " hybrid",
    })?;
    let size = layout.size;
    let fill = layout.fill;
    let sector = layout.sector;
    write!(f, " size={size} sector={sector} fill={fill}")?;
    if layout.whole {
        f.write_str(" whole")?;
    }
    Ok(())
}

fn put_record<W: fmt::Write>(f: &mut fmt::Formatter<W>, mbr: &MbrSpec) -> fmt::Result {
    let signature = mbr.signature;
    write!(f, "; signature={signature}")?;
    put_entries(f, "slots", mbr.entries.as_slice())
}

/// Each entry as its type, its first sector and its count, an asterisk before one that is active; `-` is an empty one.
fn put_entries<W: fmt::Write>(
    f: &mut fmt::Formatter<W>,
    title: &str,
    entries: &[MbrEntry],
) -> fmt::Result {
    if entries.is_empty() {
        return Ok(());
    }
    f.write_str("; ")?;
    f.write_str(title)?;
    for entry in entries {
        put_entry(f, entry)?;
    }
    Ok(())
}

fn put_entry<W: fmt::Write>(f: &mut fmt::Formatter<W>, entry: &MbrEntry) -> fmt::Result {
    if entry.is_empty() {
        return f.write_str(" -");
    }
    let active = if entry.active { "*" } else { "" };
    let kind = entry.kind;
    let first = entry.first;
    let count = entry.count;
    write!(f, " {active}{kind}@{first}+{count}")
}

/// Each as its type, the sector of its record, its first sector and its count.
fn put_logical<W: fmt::Write>(f: &mut fmt::Formatter<W>, logical: &[LogicalSpec]) -> fmt::Result {
    if logical.is_empty() {
        return Ok(());
    }
    f.write_str("; logical")?;
    for spec in logical {
        let active = if spec.active { "*" } else { "" };
        let kind = spec.kind;
        let head = spec.head;
        let first = spec.first;
        let count = spec.count;
        write!(f, " {active}{kind}@{head}/{first}+{count}")?;
    }
    Ok(())
}

fn put_gpt<W: fmt::Write>(f: &mut fmt::Formatter<W>, gpt: &GptSpec) -> fmt::Result {
    f.write_str("; disk ")?;
    put_digits(f, gpt.disk.as_slice())?;
    let sectors = gpt.sectors;
    let at = gpt.entries_at;
    write!(f, " sectors={sectors} entries={at}")?;
    if gpt.backup {
        f.write_str(" backup")?;
    }
    for entry in gpt.entries.as_slice() {
        put_guid_entry(f, entry)?;
    }
    Ok(())
}

/// An entry as its type, its own identifier, its sectors, its attributes and the units of its name.
fn put_guid_entry<W: fmt::Write>(f: &mut fmt::Formatter<W>, entry: &GptEntry) -> fmt::Result {
    f.write_str("; entry ")?;
    put_digits(f, entry.kind.as_slice())?;
    f.write_str(" ")?;
    put_digits(f, entry.own.as_slice())?;
    let first = entry.first;
    let last = entry.last;
    let attrs = entry.attrs;
    write!(f, " {first}-{last} attrs={attrs} ")?;
    for unit in &entry.name {
        if let Ok(byte) = u8::try_from(*unit) {
            put_character(f, byte)?;
        }
    }
    Ok(())
}

/// A printable character of ASCII.
fn put_character<W: fmt::Write>(f: &mut fmt::Formatter<W>, byte: u8) -> fmt::Result {
    if byte < 0x20 || byte > 0x7E {
        return Ok(());
    }
    f.write_char(char::from(byte))
}

fn put_digits<W: fmt::Write>(f: &mut fmt::Formatter<W>, bytes: &[u8]) -> fmt::Result {
    for byte in bytes {
        write!(f, "{byte:02x}")?;
    }
    Ok(())
}

fn put_parts<W: fmt::Write>(f: &mut fmt::Formatter<W>, parts: &[Placed]) -> fmt::Result {
    for part in parts {
        put_part(f, part)?;
    }
    Ok(())
}

/// A partition with its place and its size, the length of its file, its file, and its holes.
fn put_part<W: fmt::Write>(f: &mut fmt::Formatter<W>, part: &Placed) -> fmt::Result {
    f.write_str("; part ")?;
    f.write_str(part.name.text())?;
    let at = part.at;
    let size = part.size;
    let len = part.len;
    write!(f, " {at}+{size} len={len}")?;
    if let Some(source) = &part.source {
        f.write_str(" of ")?;
        f.write_str(source.text())?;
    }
    if part.whole {
        f.write_str(" whole")?;
    }
    for hole in part.holes.as_slice() {
        let at = hole.at;
        let len = hole.len;
        write!(f, " hole {at}+{len}")?;
    }
    Ok(())
}
