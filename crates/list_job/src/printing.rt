//! The lines that list an image.
ghost use Rattle.std.specs.Prelude.{◌≡◌, ◌≢◌, ◌≤◌, [], ◌∷◌, IfSome, OnOk, OnErr, length};
ghost use Rattle.answer_lines.specs.Lines.{sparse_text};
ghost use Rattle.base_fields.specs.declared.spans.TableKind.TheVariants as table;
ghost use Rattle.job_stages.specs.Printing.{Prints};
ghost use Rattle.outside.specs.Counts.{Rose};
ghost use Rattle.table_lines.specs.Lines.{entry_text, gpt_text, logical_text, table_text};
ghost use Rattle.table_reader.specs.Tables.{AreTables, IsGpt};
ghost use Rattle.list_job.specs.Listings.{IsListing};
ghost use Rattle.list_job.specs.Printed.{PrintsTurn, entry_lines, gpt_lines, listing_lines};
ghost use Rattle.list_job.specs.Printed.{logical_lines, primary_lines, slot_lines, tables_lines};

use crate::Listing;
use answer_lines::sparse_line;
use gpt_reading::GptTable;
use gpt_table::GptEntry;
use mbr_table::MbrEntry;
use outside::{PrintErr, Printer};
use sparse_reader::SparseView;
use table_lines::{LINE_ROOM, entry_line, gpt_line, logical_line, primary_line, table_line};
use table_reader::Tables;

/// Prints the lines of a listing: the one of a sparse image; or that of the table, one for each slot in use and for each
/// logical partition, and, where there is a GUID partition table, its line and one for each of its entries. After one that
/// fails, none.
pub fn print_listing<P: Printer>(listing: &Listing, out: &mut P) -> Result<(), PrintErr>
    requires { IsListing listing.now }
    ensures ok { OnOk result (P.faults out.new ≡ P.faults out.old) }
    ensures failed { OnErr result (Rose (P.faults out.old) (P.faults out.new)) }
    ensures prints { Prints (listing_lines listing.now) (P.lines out.old) (P.lines out.new) (P.faults out.old) (P.faults out.new) }
    ensures none_fell { P.faults out.old ≤ P.faults out.new }
{
    match listing {
        Listing::Sparse(view) => print_sparse(view, out),
        Listing::Tables(tables) => print_tables(tables, out),
    }
}

fn print_tables<P: Printer>(tables: &Tables, out: &mut P) -> Result<(), PrintErr>
    requires { AreTables tables.now }
    ensures prints { PrintsTurn (tables_lines tables.now) (P.lines out.old) (P.lines out.new) (P.faults out.old) (P.faults out.new) result }
    ensures none_fell { P.faults out.old ≤ P.faults out.new }
{
    print_kind(tables, out)?;
    print_slots(&tables.slots, out)?;
    print_logicals(tables.logical.as_slice(), out)?;
    print_gpt(&tables.gpt, tables.sector, out)?;
    Ok(())
}

// The lines of the slots in use.
fn print_slots<P: Printer>(slots: &[MbrEntry], out: &mut P) -> Result<(), PrintErr>
    requires { length slots.now ≤ 256 }
    ensures prints { PrintsTurn (primary_lines slots.now) (P.lines out.old) (P.lines out.new) (P.faults out.old) (P.faults out.new) result }
    ensures none_fell { P.faults out.old ≤ P.faults out.new }
{
    for (place, entry) in slots.iter().enumerate() {
        print_slot(place as u32 + 1, entry, out)?;
    }
    Ok(())
}

fn print_logicals<P: Printer>(logical: &[MbrEntry], out: &mut P) -> Result<(), PrintErr>
    requires { length logical.now ≤ 256 }
    ensures prints { PrintsTurn (logical_lines logical.now) (P.lines out.old) (P.lines out.new) (P.faults out.old) (P.faults out.new) result }
    ensures none_fell { P.faults out.old ≤ P.faults out.new }
{
    for (place, entry) in logical.iter().enumerate() {
        print_logical(place as u32 + 5, entry, out)?;
    }
    Ok(())
}

// The lines of a GUID partition table, and none where there is none.
fn print_gpt<P: Printer>(gpt: &Option<GptTable>, sector: u32, out: &mut P) -> Result<(), PrintErr>
    requires { IfSome gpt.now IsGpt }
    ensures prints { PrintsTurn (gpt_lines gpt.now sector) (P.lines out.old) (P.lines out.new) (P.faults out.old) (P.faults out.new) result }
    ensures none_fell { P.faults out.old ≤ P.faults out.new }
{
    let Some(gpt) = gpt else {
        return Ok(());
    };
    print_disk(gpt, sector, out)?;
    print_entries(gpt.slots.as_slice(), gpt.entries.as_slice(), out)?;
    Ok(())
}

// The lines of entries, each with the number of its slot.
fn print_entries<P: Printer>(
    slots: &[u32],
    entries: &[GptEntry],
    out: &mut P,
) -> Result<(), PrintErr>
    requires { length slots.now ≡ length entries.now }
    ensures prints { PrintsTurn (entry_lines slots.now entries.now) (P.lines out.old) (P.lines out.new) (P.faults out.old) (P.faults out.new) result }
    ensures none_fell { P.faults out.old ≤ P.faults out.new }
{
    for (place, entry) in entries.iter().enumerate() {
        print_entry(slots[place], entry, out)?;
    }
    Ok(())
}

// ---- one line each

fn print_sparse<P: Printer>(view: &SparseView, out: &mut P) -> Result<(), PrintErr>
    ensures prints { PrintsTurn (sparse_text view.now ∷ []) (P.lines out.old) (P.lines out.new) (P.faults out.old) (P.faults out.new) result }
    ensures none_fell { P.faults out.old ≤ P.faults out.new }
{
    let mut room = [0; LINE_ROOM];
    let length = sparse_line(view, &mut room);
    print_line(&room[..length], out)
}

fn print_kind<P: Printer>(tables: &Tables, out: &mut P) -> Result<(), PrintErr>
    requires { tables.now.kind ≢ table.Bare }
    ensures prints { PrintsTurn (table_text tables.now ∷ []) (P.lines out.old) (P.lines out.new) (P.faults out.old) (P.faults out.new) result }
    ensures none_fell { P.faults out.old ≤ P.faults out.new }
{
    let mut room = [0; LINE_ROOM];
    let length = table_line(tables, &mut room);
    print_line(&room[..length], out)
}

// An empty slot has no line.
fn print_slot<P: Printer>(slot: u32, entry: &MbrEntry, out: &mut P) -> Result<(), PrintErr>
    ensures prints { PrintsTurn (slot_lines slot entry.now) (P.lines out.old) (P.lines out.new) (P.faults out.old) (P.faults out.new) result }
    ensures none_fell { P.faults out.old ≤ P.faults out.new }
{
    if entry.is_empty() {
        return Ok(());
    }
    let mut room = [0; LINE_ROOM];
    let length = primary_line(slot, entry, &mut room);
    print_line(&room[..length], out)
}

fn print_logical<P: Printer>(number: u32, entry: &MbrEntry, out: &mut P) -> Result<(), PrintErr>
    ensures prints { PrintsTurn (logical_text number entry.now ∷ []) (P.lines out.old) (P.lines out.new) (P.faults out.old) (P.faults out.new) result }
    ensures none_fell { P.faults out.old ≤ P.faults out.new }
{
    let mut room = [0; LINE_ROOM];
    let length = logical_line(number, entry, &mut room);
    print_line(&room[..length], out)
}

fn print_disk<P: Printer>(gpt: &GptTable, sector: u32, out: &mut P) -> Result<(), PrintErr>
    ensures prints { PrintsTurn (gpt_text gpt.now sector ∷ []) (P.lines out.old) (P.lines out.new) (P.faults out.old) (P.faults out.new) result }
    ensures none_fell { P.faults out.old ≤ P.faults out.new }
{
    let mut room = [0; LINE_ROOM];
    let length = gpt_line(gpt, sector, &mut room);
    print_line(&room[..length], out)
}

fn print_entry<P: Printer>(slot: u32, entry: &GptEntry, out: &mut P) -> Result<(), PrintErr>
    ensures prints { PrintsTurn (entry_text slot entry.now ∷ []) (P.lines out.old) (P.lines out.new) (P.faults out.old) (P.faults out.new) result }
    ensures none_fell { P.faults out.old ≤ P.faults out.new }
{
    let mut room = [0; LINE_ROOM];
    let length = entry_line(slot, entry, &mut room);
    print_line(&room[..length], out)
}

fn print_line<P: Printer>(line: &[u8], out: &mut P) -> Result<(), PrintErr>
    ensures prints { PrintsTurn (line.now ∷ []) (P.lines out.old) (P.lines out.new) (P.faults out.old) (P.faults out.new) result }
    ensures none_fell { P.faults out.old ≤ P.faults out.new }
{
    out.line(line)
}
