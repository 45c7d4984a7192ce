//! The parts of the lines that numbers and truth values are not enough for.
ghost use Rattle.std.specs.Prelude.{◌≡◌, ◌≢◌, ◌+◌, ◌==◌, ◌≤◌, ◌++◌, IfSome, length, map};
ghost use Rattle.std.specs.List.{before_first, position};
ghost use Rattle.base_fields.specs.declared.spans.TableKind.TheVariants as table;
ghost use Rattle.hex.specs.Hex.{encode_lower};
ghost use Rattle.line_parts.specs.Line.{spelled, with_fields};
ghost use Rattle.table_lines.specs.Lines.{entry_fields as fields_of, identifier as identifier_of, kind_name as name_of};
ghost use Rattle.table_lines.specs.Lines.{sector_fields, shown_unit as unit_of, shown_units};

use base_fields::TableKind;
use line_parts::Line;
use mbr_table::MbrEntry;
use uuid::Uuid;

/// What a kind of table is called.
pub fn kind_name(kind: TableKind) -> &'static str
    requires { kind ≢ table.Bare }
    ensures name { result.now ≡ name_of kind }
    ensures short { length result.now ≤ 6 }
{
    match kind {
        TableKind::Mbr => "mbr",
        TableKind::Gpt => "gpt",
        TableKind::Hybrid => "hybrid",
        TableKind::Bare => unreachable!(),
    }
}

// The line with the bytes of a value behind its key.
fn pair(line: Line, key: &str, value: &[u8]) -> Line
    requires { length line + (length key.now + length value.now + 2) ≤ 1024 }
    ensures added { result ≡ line ++ spelled (key.now, value.now) }
    ensures room { length result ≤ length line + (length key.now + length value.now + 2) }
{
    line.with(b" ").with(key.as_bytes()).with(b"=").with(value)
}

/// The line with the bytes of a number behind its key, as hexadecimal digits.
pub fn digits(line: Line, key: &str, bytes: &[u8]) -> Line
    requires few { length bytes.now ≤ 8 }
    requires room { length line + (length key.now + 18) ≤ 1024 }
    ensures added { result ≡ line ++ spelled (key.now, encode_lower bytes.now) }
    ensures room { length result ≤ length line + (length key.now + 18) }
{
    let mut room = [0; 16];
    let digits = &mut room[..2 * bytes.len()];
    match hex::encode_to_slice(bytes, digits) {
        Ok(()) => pair(line, key, digits),
        Err(_) => unreachable!(),
    }
}

/// The line with an identifier behind its key.
pub fn identifier(line: Line, key: &str, id: [u8; 16]) -> Line
    requires { length line + (length key.now + 38) ≤ 1024 }
    ensures added { result ≡ line ++ spelled (key.now, identifier_of id) }
    ensures room { length result ≤ length line + (length key.now + 38) }
{
    let mut room = [0; 36];
    let text = Uuid::from_bytes(id).hyphenated().encode_lower(&mut room);
    pair(line, key, text.as_bytes())
}

/// The line with what is said of an entry of a master boot record.
pub fn entry_fields(line: Line, entry: &MbrEntry) -> Line
    requires { length line ≤ 512 }
    ensures added { result ≡ with_fields line (fields_of entry.now) }
    ensures room { length result ≤ length line + 100 }
{
    digits(line, "type", &entry.kind.to_be_bytes())
        .flag("active", entry.active)
        .number("first", u64::from(entry.first))
        .number("count", u64::from(entry.count))
}

/// The line with the size of a sector, where that isn't 512.
pub fn sector(line: Line, size: u32) -> Line
    requires { length line ≤ 512 }
    ensures added { result ≡ with_fields line (sector_fields size) }
{
    if size == 4096 {
        return line.number("sector", u64::from(size));
    }
    line
}

// How a unit of a name is shown.
fn shown_unit(unit: u16) -> u8
    ensures { result ≡ unit_of unit }
{
    if 0x20 <= unit && unit <= 0x7E {
        unit as u8
    } else {
        b'?'
    }
}

// The place of the first unit that is zero.
fn first_zero(name: &[u16]) -> Option<usize>
    ensures at { result ≡ position (λ unit. unit == 0) name.now }
    ensures within { IfSome result (λ end. end ≤ length name.now) }
{
    name.iter().position(|unit| *unit == 0)
}

// The units in front of it.
fn before_zero(name: &[u16]) -> &[u16]
    ensures units { result.now ≡ before_first (λ unit. unit == 0) name.now }
    ensures few { length result.now ≤ length name.now }
{
    match first_zero(name) {
        Some(end) => &name[..end],
        None => name,
    }
}

// The line with so many units behind it, each as it is shown.
fn with_units(line: Line, units: &[u16]) -> Line
    requires { length line + length units.now ≤ 1024 }
    ensures { result ≡ line ++ map unit_of units.now }
{
    let mut line = line;
    for unit in units {
        line = line.with(&[shown_unit(*unit)]);
    }
    line
}

/// The line with the name of an entry behind its key.
pub fn units(line: Line, key: &str, name: &[u16; 36]) -> Line
    requires { length line + (length key.now + 38) ≤ 1024 }
    ensures { result ≡ line ++ spelled (key.now, shown_units name.now) }
{
    let line = line.with(b" ").with(key.as_bytes()).with(b"=");
    with_units(line, before_zero(name))
}
