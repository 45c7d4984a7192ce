ghost use Rattle.std.specs.Prelude.{◌≡◌, ℕ, ◌+◌, ◌*◌, ◌^◌, ◌<◌, ◌≤◌, length, slice_index, flat_map};
ghost use Rattle.byteorder.specs.Endian.{little_bytes};
ghost use Rattle.base_fields.specs.Fields.{written, joined};
ghost use Rattle.base_fields.specs.Numbers.{guid_order};
ghost use Rattle.gpt_table.specs.Gpt.{EntryFits, slot_of, entry_fields, entries_byte};

use base_fields::{guid_bytes, put_u64};
use byteorder::{ByteOrder, LittleEndian};

/// A partition in a table. The identifiers are in the order of RFC 9562.
#[derive(Clone, Copy, Debug, PartialEq, Eq)]
pub struct GptEntry {
    /// The type GUID.
    pub kind: [u8; 16],
    /// The partition's own GUID.
    pub own: [u8; 16],
    /// The LBA of the first sector.
    pub first: u64,
    /// The LBA of the last sector.
    pub last: u64,
    /// The attribute bits.
    pub attrs: u64,
    /// The units of the name in UTF-16, zero after its end.
    pub name: [u16; 36],
}

/// Writes the 16 bytes of a GUID at `at`.
pub fn put_guid(room: &mut [u8], at: usize, id: [u8; 16])
    requires { at + 16 ≤ length room.old }
    ensures { room.new ≡ written room.old at (guid_order id) }
{
    room[at..at + 16].copy_from_slice(&guid_bytes(id));
}

/// Writes a number of eight bytes at `at`.
fn put_number(room: &mut [u8], at: usize, value: u64)
    requires { at + 8 ≤ length room.old }
    ensures written { room.new ≡ written room.old at (little_bytes 8 value) }
    ensures fits { value < 2 ^ 64 }
{
    put_u64(room, at, value);
}

/// Writes the 36 units of a name at `at`.
fn put_name(room: &mut [u8], at: usize, name: &[u16; 36])
    requires { at + 72 ≤ length room.old }
    ensures written { room.new ≡ written room.old at (flat_map (little_bytes 2) name.now) }
    ensures units { (i : ℕ) → slice_index name.now i < 2 ^ 16 }
{
    LittleEndian::write_u16_into(name, &mut room[at..at + 72]);
}

/// The bytes of an entry.
fn entry_bytes(entry: &GptEntry) -> [u8; 128]
    ensures bytes { result ≡ joined (entry_fields entry.now) }
    ensures fits { EntryFits entry.now }
{
    let mut bytes = [0; 128];
    put_guid(&mut bytes, 0, entry.kind);
    put_guid(&mut bytes, 16, entry.own);
    put_number(&mut bytes, 32, entry.first);
    put_number(&mut bytes, 40, entry.last);
    put_number(&mut bytes, 48, entry.attrs);
    put_name(&mut bytes, 56, &entry.name);
    bytes
}

/// Writes the 128 bytes of an entry at `at`.
fn put_entry(room: &mut [u8], at: usize, entry: &GptEntry)
    requires { at + 128 ≤ length room.old }
    ensures written { room.new ≡ written room.old at (joined (entry_fields entry.now)) }
    ensures fits { EntryFits entry.now }
{
    room[at..at + 128].copy_from_slice(&entry_bytes(entry));
}

/// Fills the room with the entries, one after another, and zeros behind them.
pub fn put_entries(entries: &[GptEntry], room: &mut [u8])
    requires { 128 * length entries.now ≤ length room.old }
    ensures written { (o : ℕ) → o < length room.old → slice_index room.new o ≡ entries_byte entries.now o }
    ensures fits { (k : ℕ) → k < length entries.now → EntryFits (slot_of entries.now k) }
{
    room.fill(0);
    for (k, entry) in entries.iter().enumerate() {
        put_entry(room, 128 * k, entry);
    }
}
