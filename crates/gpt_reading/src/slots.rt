//! One entry in its 128 bytes.
ghost use Rattle.std.specs.Prelude.{◌≡◌, ◌+◌, ◌≤◌, length};
ghost use Rattle.gpt_table.specs.Reading.{guid_at, slot_at, units_at};
ghost use Rattle.table_reading.specs.Recognised.{image_of};
ghost use Rattle.gpt_reading.specs.Used.{is_used as has_type};

use base_fields::guid_bytes;
use byteorder::{ByteOrder, LittleEndian};
use gpt_table::GptEntry;
use table_reading::read_long;

/// The identifier in the sixteen bytes at `at`, in the order of RFC 9562.
#[tactic(auto, using(crate::proofs::Bytes::guid_here))]
pub fn read_guid(bytes: &[u8], at: usize) -> [u8; 16]
    requires { at + 16 ≤ length bytes.now }
    ensures { result ≡ guid_at (image_of bytes.now) at }
{
    let mut id = [0; 16];
    id.copy_from_slice(&bytes[at..at + 16]);
    guid_bytes(id)
}

/// The 36 units of a name in the bytes at `at`.
fn read_units(bytes: &[u8], at: usize) -> [u16; 36]
    requires { at + 72 ≤ length bytes.now }
    ensures { result ≡ units_at (image_of bytes.now) at 36 }
{
    let mut units = [0; 36];
    LittleEndian::read_u16_into(&bytes[at..at + 72], &mut units);
    units
}

/// The entry in the 128 bytes at `at` (UEFI 2.10, section 5.3.3).
pub fn read_slot(bytes: &[u8], at: usize) -> GptEntry
    requires { at + 128 ≤ length bytes.now }
    ensures { result ≡ slot_at (image_of bytes.now) at }
{
    GptEntry {
        kind: read_guid(bytes, at),
        own: read_guid(bytes, at + 16),
        first: read_long(bytes, at + 32),
        last: read_long(bytes, at + 40),
        attrs: read_long(bytes, at + 48),
        name: read_units(bytes, at + 56),
    }
}

/// Whether an entry is in use: its type isn't the nil GUID.
pub fn is_used(entry: &GptEntry) -> bool
    ensures { result ≡ has_type entry.now }
{
    entry.kind.iter().any(|byte| *byte != 0)
}
