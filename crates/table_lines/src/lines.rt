ghost use Rattle.std.specs.Prelude.{◌≢◌, ◌≤◌, length};
ghost use Rattle.base_fields.specs.declared.spans.TableKind.TheVariants as table;
ghost use Rattle.line_parts.specs.Line.{PutsLine};
ghost use Rattle.table_lines.specs.Lines.{entry_text, gpt_text, logical_text, primary_text, table_text};

use crate::parts::{digits, entry_fields, identifier, kind_name, sector, units};
use gpt_reading::GptTable;
use gpt_table::GptEntry;
use line_parts::Line;
use mbr_table::MbrEntry;
use table_reader::Tables;

/// The line of a table, with its kind and the disk signature of its master boot record. Here and in each call below, the
/// line is put at the front of the room, which has at least [`LINE_ROOM`](crate::LINE_ROOM) bytes, and its length is given.
pub fn table_line(tables: &Tables, room: &mut [u8]) -> usize
    requires kind { tables.now.kind ≢ table.Bare }
    requires room { 1024 ≤ length room.old }
    ensures { PutsLine (table_text tables.now) room.new result }
{
    let line = Line::headed("table ").with(kind_name(tables.kind).as_bytes());
    digits(line, "signature", &tables.signature.to_be_bytes()).put(room)
}

/// The line of a slot of the master boot record, slots being counted from 1.
pub fn primary_line(slot: u32, entry: &MbrEntry, room: &mut [u8]) -> usize
    requires { 1024 ≤ length room.old }
    ensures { PutsLine (primary_text slot entry.now) room.new result }
{
    let line = Line::headed("primary").number("slot", u64::from(slot));
    entry_fields(line, entry).put(room)
}

/// The line of a logical partition; the first has the number 5.
pub fn logical_line(number: u32, entry: &MbrEntry, room: &mut [u8]) -> usize
    requires { 1024 ≤ length room.old }
    ensures { PutsLine (logical_text number entry.now) room.new result }
{
    let line = Line::headed("logical").number("number", u64::from(number));
    entry_fields(line, entry).put(room)
}

/// The line of a GUID partition table in sectors of so many bytes.
pub fn gpt_line(gpt: &GptTable, sector_size: u32, room: &mut [u8]) -> usize
    requires { 1024 ≤ length room.old }
    ensures { PutsLine (gpt_text gpt.now sector_size) room.new result }
{
    let line = identifier(Line::headed("gpt"), "disk", gpt.disk)
        .number("first", gpt.first_usable)
        .number("last", gpt.last_usable);
    sector(line, sector_size).put(room)
}

/// The line of an entry of a GUID partition table, slots being counted from 1.
pub fn entry_line(slot: u32, entry: &GptEntry, room: &mut [u8]) -> usize
    requires { 1024 ≤ length room.old }
    ensures { PutsLine (entry_text slot entry.now) room.new result }
{
    let line = Line::headed("entry").number("slot", u64::from(slot));
    let line = identifier(line, "type", entry.kind);
    let line = identifier(line, "own", entry.own)
        .number("first", entry.first)
        .number("last", entry.last);
    let line = digits(line, "attrs", &entry.attrs.to_be_bytes());
    units(line, "name", &entry.name).put(room)
}
