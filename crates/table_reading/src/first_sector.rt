ghost use Rattle.std.specs.Prelude.{◌≡◌, ◌+◌, ◌≤◌, length};
ghost use Rattle.base_fields.specs.Fields.{number_at};
ghost use Rattle.mbr_table.specs.Mbr.{entry_of};
ghost use Rattle.mbr_table.specs.Reading.{slot_at};
ghost use Rattle.table_reading.specs.Recognised.{extended_slot as slot_of, image_of, is_extended as has_chain, is_marked as has_mark, kind_of as table_of, record_of};

use base_fields::{TableKind, get_u32};
use mbr_table::{MARK, MbrEntry, MbrSpec};

/// The status of an active entry; each other one is that of an entry that isn't.
const ACTIVE: u8 = 0x80;

/// The type of the entry that protects a GUID partition table.
const PROTECTIVE: u8 = 0xEE;

/// The types of an extended partition: addressed by cylinders, and by sectors.
const EXTENDED: [u8; 2] = [0x05, 0x0F];

/// The number in the four bytes at `at`.
#[tactic(auto, using(crate::proofs::Numbers::number_here))]
pub fn read_number(bytes: &[u8], at: usize) -> u32
    requires { at + 4 ≤ length bytes.now }
    ensures { result ≡ number_at (image_of bytes.now) at 4 }
{
    get_u32(bytes, at)
}

/// The entry in the sixteen bytes at `at`. The addresses by cylinder aren't looked at.
pub fn read_entry(bytes: &[u8], at: usize) -> MbrEntry
    requires { at + 16 ≤ length bytes.now }
    ensures { result ≡ slot_at (image_of bytes.now) at }
{
    MbrEntry {
        active: bytes[at] == ACTIVE,
        kind: bytes[at + 4],
        first: read_number(bytes, at + 8),
        count: read_number(bytes, at + 12),
    }
}

/// Whether the sector ends in 55 AA.
pub fn is_marked(sector: &[u8; 512]) -> bool
    ensures { result ≡ has_mark sector.now }
{
    sector[510] == MARK[0] && sector[511] == MARK[1]
}

/// What the first sector of an image says, where it is a master boot record (UEFI 2.10, section 5.2.1).
pub fn read_mbr(sector: &[u8; 512]) -> Option<MbrSpec>
    ensures { result ≡ record_of sector.now }
{
    if !is_marked(sector) {
        return None;
    }
    Some(MbrSpec {
        signature: read_number(sector, 440),
        entries: [
            read_entry(sector, 446),
            read_entry(sector, 462),
            read_entry(sector, 478),
            read_entry(sector, 494),
        ],
    })
}

/// The kind of table beside this master boot record. It is never a bare one.
pub fn kind_of(spec: &MbrSpec) -> TableKind
    ensures { result ≡ table_of spec.now }
{
    let [first, second, third, fourth] = &spec.entries;
    if first.kind != PROTECTIVE {
        return TableKind::Mbr;
    }
    if second.is_empty() && third.is_empty() && fourth.is_empty() {
        TableKind::Gpt
    } else {
        TableKind::Hybrid
    }
}

/// Whether the entry is that of an extended partition, whose sectors hold a chain of records.
fn is_extended(entry: &MbrEntry) -> bool
    ensures { result ≡ has_chain entry.now }
{
    entry.kind == EXTENDED[0] || entry.kind == EXTENDED[1]
}

/// The number, from 1, of the first slot that is an extended partition, and 0 where there is none.
pub fn extended_slot(spec: &MbrSpec) -> u32
    ensures { result ≡ slot_of spec.now }
{
    if is_extended(&spec.entries[0]) {
        return 1;
    }
    if is_extended(&spec.entries[1]) {
        return 2;
    }
    if is_extended(&spec.entries[2]) {
        return 3;
    }
    if is_extended(&spec.entries[3]) {
        return 4;
    }
    0
}
