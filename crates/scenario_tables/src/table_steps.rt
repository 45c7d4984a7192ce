//! Steps on partition tables. Each puts the bytes of a table into a file.
ghost use Rattle.std.specs.Prelude.{◌≡◌, ◌+◌, ◌^◌, ◌<◌, ◌≤◌, All, IfOk, IsTrue, length};
ghost use Rattle.extended_chain.specs.Chain.{Ascends, logical_of};
ghost use Rattle.gpt_table.specs.Gpt.{HasSectorSize, first_usable_of, least_sectors};
ghost use Rattle.mbr_table.specs.Mbr.{HasLast};

use crate::value_steps::read_id;
use anyhow::{Result, bail};
use base_fields::List;
use extended_chain::{LogicalSpec, record_bytes};
use gpt_table::{Flags, GptEntry, GptSpec, gpt, name_units};
use hybrid_table::hybrid_bytes;
use mbr_table::{MbrEntry, MbrSpec, mbr_bytes, protective_entry};
use scenario_words::{Arguments, Setting};
use std::alloc::Global;

/// A step on a partition table.
#[derive(Debug, Drop)]
pub enum TableStep {
    /// The bytes at 440 to 511 of a master boot record.
    Mbr {
        name: String,
        signature: u32,
        entries: Vec<MbrEntry>,
    },
    /// The same of a disk of so many sectors with a GUID partition table.
    Protective {
        name: String,
        sectors: u64,
    },
    /// The same beside a GUID partition table, whose front has so many sectors.
    Hybrid {
        name: String,
        signature: u32,
        front: u64,
        entries: Vec<MbrEntry>,
    },
    /// The record of one of these logical partitions.
    Record {
        name: String,
        number: usize,
        specs: Vec<LogicalSpec>,
    },
    /// The entries and both headers of a GUID partition table, each a file.
    Gpt {
        name: String,
        spec: GptSpec,
    },
    /// The attribute bits of a partition.
    Attributes {
        flags: Flags,
    },
    /// The units of a partition's name.
    NameUnits {
        name: Vec<u8>,
    },
}

impl TableStep {
    /// The step of a verb, where it is one of these.
    pub fn read(alloc: Global, verb: &str, words: &mut Arguments) -> Result<Option<TableStep>> {
        let step = match verb {
            "mbr" => TableStep::Mbr {
                name: words.text("a file")?,
                signature: words.word("a signature")?,
                entries: read_entries(alloc, words)?,
            },
            "protective" => TableStep::Protective {
                name: words.text("a file")?,
                sectors: words.number("a count of sectors")?,
            },
            "hybrid" => TableStep::Hybrid {
                name: words.text("a file")?,
                signature: words.word("a signature")?,
                front: words.number("a count of sectors")?,
                entries: read_entries(alloc, words)?,
            },
            "record" => TableStep::Record {
                name: words.text("a file")?,
                number: words.count("a number")?,
                specs: read_specs(alloc, words)?,
            },
            "gpt" => TableStep::Gpt {
                name: words.text("a file")?,
                spec: read_gpt(alloc, words)?,
            },
            "attributes" => TableStep::Attributes {
                flags: read_flags(words)?,
            },
            "name-units" => TableStep::NameUnits {
                name: words.bytes("a name")?,
            },
            _ => return Ok(None),
        };
        Ok(Some(step))
    }

    /// Does it, and says what came of it.
    pub fn play(self, setting: &mut Setting) -> Result<String> {
        match self {
            TableStep::Mbr {
                name,
                signature,
                entries,
            } => put_mbr(setting, &name, signature, &entries),
            TableStep::Protective { name, sectors } => put_protective(setting, &name, sectors),
            TableStep::Hybrid {
                name,
                signature,
                front,
                entries,
            } => put_hybrid(setting, &name, signature, front, &entries),
            TableStep::Record {
                name,
                number,
                specs,
            } => put_record(setting, &name, number, &specs),
            TableStep::Gpt { name, spec } => put_gpt(setting, &name, &spec),
            TableStep::Attributes { flags } => attributes(setting.alloc, flags),
            TableStep::NameUnits { name } => show_units(setting.alloc, &name),
        }
    }
}

fn read_entries(alloc: Global, words: &mut Arguments) -> Result<Vec<MbrEntry>> {
    let mut entries = Vec::new(alloc);
    for _ in 0..words.left() {
        if words.is_empty() {
            break;
        }
        entries.push(read_entry(words)?)?;
    }
    Ok(entries)
}

/// An entry that has a sector.
pub fn read_entry(words: &mut Arguments) -> Result<MbrEntry> {
    let entry = MbrEntry {
        active: words.truth("active")?,
        kind: words.byte("a type")?,
        first: words.word("a sector")?,
        count: words.word("a count of sectors")?,
    };
    if entry.first == 0 && entry.count == 0 {
        bail!("an entry without a sector");
    }
    Ok(entry)
}

/// Logical partitions, as long as there are words.
pub fn read_specs(alloc: Global, words: &mut Arguments) -> Result<Vec<LogicalSpec>> {
    let mut specs = Vec::new(alloc);
    for _ in 0..words.left() {
        if words.is_empty() {
            break;
        }
        specs.push(read_logical(words)?)?;
    }
    Ok(specs)
}

fn read_logical(words: &mut Arguments) -> Result<LogicalSpec> {
    Ok(LogicalSpec {
        active: words.truth("active")?,
        kind: words.byte("a type")?,
        head: words.word("the record's sector")?,
        first: words.word("a sector")?,
        count: words.word("a count of sectors")?,
    })
}

fn read_gpt(alloc: Global, words: &mut Arguments) -> Result<GptSpec> {
    let disk = read_id(words)?;
    let sector = words.word("a sector's size")?;
    let sectors = words.number("a count of sectors")?;
    let entries_at = words.number("a sector")?;
    let backup = words.truth("backup")?;
    let mut entries = List::new(alloc);
    for _ in 0..words.left() {
        if words.is_empty() {
            break;
        }
        entries.push(read_gpt_entry(words)?)?;
    }
    Ok(GptSpec {
        disk,
        sectors,
        entries_at,
        backup,
        entries,
        sector,
    })
}

fn read_gpt_entry(words: &mut Arguments) -> Result<GptEntry> {
    Ok(GptEntry {
        kind: read_id(words)?,
        own: read_id(words)?,
        first: words.number("a sector")?,
        last: words.number("a sector")?,
        attrs: words.number("attributes")?,
        name: units_of(&words.text("a name")?),
    })
}

/// The units of a name, as many as have room.
fn units_of(name: &str) -> [u16; 36] {
    let mut units = [0; 36];
    for (unit, given) in units.iter_mut().zip(name.encode_utf16()) {
        *unit = given;
    }
    units
}

fn read_flags(words: &mut Arguments) -> Result<Flags> {
    Ok(Flags {
        bootable: words.truth("bootable")?,
        read_only: words.truth("read-only")?,
        hidden: words.truth("hidden")?,
        no_automount: words.truth("no-automount")?,
    })
}

/// Whether an entry is empty or has a last sector.
pub fn has_last(entry: &MbrEntry) -> bool
    ensures { IsTrue result → HasLast 0 entry.now }
{
    entry.is_empty() || entry.first > 0 || entry.count > 0
}

fn all_have_last(entries: &[MbrEntry]) -> bool
    ensures { IsTrue result → All (HasLast 0) entries.now }
{
    for entry in entries {
        if !has_last(entry) {
            return false;
        }
    }
    true
}

fn put_mbr(
    setting: &mut Setting,
    name: &str,
    signature: u32,
    entries: &[MbrEntry],
) -> Result<String> {
    let mut slots = [MbrEntry::EMPTY; 4];
    for (slot, entry) in slots.iter_mut().zip(entries) {
        *slot = *entry;
    }
    let [a, b, c, d] = slots;
    if !has_last(&a) || !has_last(&b) || !has_last(&c) || !has_last(&d) {
        bail!("an entry without a sector");
    }
    let bytes = mbr_bytes(&MbrSpec {
        signature,
        entries: [a, b, c, d],
    });
    setting.store(name, &bytes)
}

fn put_protective(setting: &mut Setting, name: &str, sectors: u64) -> Result<String> {
    if sectors < 2 {
        bail!("fewer than two sectors");
    }
    let none = MbrEntry::EMPTY;
    let bytes = mbr_bytes(&MbrSpec {
        signature: 0,
        entries: [protective_entry(sectors), none, none, none],
    });
    setting.store(name, &bytes)
}

fn put_hybrid(
    setting: &mut Setting,
    name: &str,
    signature: u32,
    front: u64,
    entries: &[MbrEntry],
) -> Result<String> {
    if front < 2 || entries.len() > 3 || !all_have_last(entries) {
        bail!("no hybrid record");
    }
    let bytes = hybrid_bytes(signature, front, entries);
    setting.store(name, &bytes)
}

fn put_record(
    setting: &mut Setting,
    name: &str,
    number: usize,
    specs: &[LogicalSpec],
) -> Result<String> {
    if number >= specs.len() || !ascends(specs) {
        bail!("no such record");
    }
    let bytes = record_bytes(specs, number);
    setting.store(name, &bytes)
}

/// Whether each record stands before its partition and before the next record, and its sectors fit a field.
fn ascends(specs: &[LogicalSpec]) -> bool
    ensures { IsTrue result → Ascends specs.now }
{
    for k in 0..specs.len() {
        if !stands(specs, k) {
            return false;
        }
    }
    true
}

fn stands(specs: &[LogicalSpec], k: usize) -> bool
    requires { k < length specs.now }
    ensures ahead { IsTrue result → (logical_of specs.now k).head < (logical_of specs.now k).first }
    ensures rises { IsTrue result → k + 1 < length specs.now → (logical_of specs.now k).head < (logical_of specs.now (k + 1)).head }
    ensures fits { IsTrue result → (logical_of specs.now k).first + (logical_of specs.now k).count < (logical_of specs.now k).head + 2 ^ 32 }
{
    let spec = specs[k];
    if k + 1 < specs.len() && spec.head >= specs[k + 1].head {
        return false;
    }
    spec.head < spec.first && is_near(spec.head, spec.first, spec.count)
}

/// Whether so many sectors from the first on end before sector `head` + 2^32.
pub fn is_near(head: u32, first: u32, count: u32) -> bool
    ensures { IsTrue result → first + count < head + 2 ^ 32 }
{
    let end = u64::from(first) + u64::from(count);
    end <= u64::from(head) + u64::from(u32::MAX)
}

/// Whether the disk has a sector for each that the headers name, and the entries in front stand below sector 2^32.
fn has_room(spec: &GptSpec) -> bool
    requires { HasSectorSize spec.now }
    ensures least { IsTrue result → least_sectors spec.now ≤ spec.now.sectors }
    ensures usable { IsTrue result → first_usable_of spec.now < 2 ^ 64 }
{
    let least = if spec.backup {
        2 + 16_384 / u64::from(spec.sector)
    } else {
        1
    };
    spec.sectors >= least && spec.entries_at <= u64::from(u32::MAX)
}

fn has_sector_size(spec: &GptSpec) -> bool
    ensures { IsTrue result → HasSectorSize spec.now }
{
    spec.sector == 512 || spec.sector == 4096
}

/// So many equal bytes, over which the entries are put.
fn filled(alloc: Global, byte: u8, len: usize) -> Result<Vec<u8>>
    ensures { IfOk result (λ v. length v.items ≡ len) }
{
    Ok(vec![in alloc; byte; len]?)
}

fn put_gpt(setting: &mut Setting, name: &str, spec: &GptSpec) -> Result<String> {
    if !has_sector_size(spec) {
        bail!("no size of a sector");
    }
    if spec.entries.len() > 128 || !has_room(spec) {
        bail!("too many entries or too few sectors");
    }
    let mut slots = filled(setting.alloc, 0xEE, 16_384)?;
    let heads = gpt(spec, &mut slots);
    setting.store(&format!(in setting.alloc; "{name}.entries")?, &slots)?;
    setting.store(&format!(in setting.alloc; "{name}.front")?, &heads.front)?;
    setting.store(&format!(in setting.alloc; "{name}.back")?, &heads.back)?;
    Ok(format!(in setting.alloc; "files {name}.entries {name}.front {name}.back")?)
}

fn attributes(alloc: Global, flags: Flags) -> Result<String> {
    let bits = flags.attributes();
    Ok(format!(in alloc; "attributes {bits:016x}")?)
}

/// The units in hexadecimal, four digits each.
fn show_units(alloc: Global, name: &[u8]) -> Result<String> {
    if name.len() > 36 {
        bail!("more than 36 bytes");
    }
    let mut line = String::from_str(alloc, "units ")?;
    for unit in name_units(name) {
        write!(line, "{unit:04x}")?;
    }
    Ok(line)
}
