ghost use Rattle.std.specs.Prelude.{◌≡◌, ℕ, ◌+◌, ◌<◌, ◌≤◌, All, length, slice_index};
ghost use Rattle.base_fields.specs.Fields.{byte_of, written, joined};
ghost use Rattle.mbr_table.specs.Mbr.{HasLast, entry_fields, mbr_fields, protective};

use crate::chs::chs;
use base_fields::put_u32;

/// The status of an active entry.
const ACTIVE: u8 = 0x80;

/// The type of the entry that keeps a GUID partition table from being taken for free room.
const PROTECTIVE: u8 = 0xEE;

/// What each boot record ends in, at 510.
pub const MARK: [u8; 2] = [0x55, 0xAA];

/// One of the four slots of a table: a partition by its type and its sectors. It is empty where
/// `kind`, `first` and `count` are 0.
#[derive(Clone, Copy, Debug, PartialEq, Eq)]
pub struct MbrEntry {
    pub active: bool,
    pub kind: u8,
    pub first: u32,
    pub count: u32,
}

/// What a master boot record says from its disk signature on.
#[derive(Clone, Copy, Debug, PartialEq, Eq)]
pub struct MbrSpec {
    pub signature: u32,
    pub entries: [MbrEntry; 4],
}

impl MbrEntry {
    ghost use Rattle.mbr_table.specs.Mbr.{is_empty};

    /// A slot that is not in use.
    pub const EMPTY: MbrEntry = MbrEntry {
        active: false,
        kind: 0,
        first: 0,
        count: 0,
    };

    /// Whether the slot is not in use.
    pub fn is_empty(&self) -> bool
        ensures { result ≡ is_empty self.now }
    {
        self.kind == 0 && self.first == 0 && self.count == 0
    }
}

/// The entry that protects the GUID partition table of a disk of so many sectors, from sector 1 to
/// the last one (UEFI 2.10, section 5.2.3).
pub fn protective_entry(sectors: u64) -> MbrEntry
    requires { 2 ≤ sectors }
    ensures { result ≡ protective sectors }
{
    MbrEntry {
        active: false,
        kind: PROTECTIVE,
        first: 1,
        count: (sectors - 1).min(u64::from(u32::MAX)) as u32,
    }
}

/// The sixteen bytes of an entry whose first sector is counted from the sector `start`.
fn entry_bytes(start: u32, entry: &MbrEntry) -> [u8; 16]
    requires { HasLast start entry.now }
    ensures { result ≡ joined (entry_fields 0 start entry.now) }
{
    let mut bytes = [0; 16];
    if entry.is_empty() {
        return bytes;
    }
    let first = u64::from(start) + u64::from(entry.first);
    let last = first + u64::from(entry.count) - 1;
    bytes[0] = if entry.active { ACTIVE } else { 0 };
    bytes[1..4].copy_from_slice(&chs(first));
    bytes[4] = entry.kind;
    bytes[5..8].copy_from_slice(&chs(last));
    put_u32(&mut bytes, 8, entry.first);
    put_u32(&mut bytes, 12, entry.count);
    bytes
}

/// Writes at `at` the sixteen bytes of an entry whose first sector is counted from the sector
/// `start`. The addresses in it are those of the disk.
pub fn put_entry(room: &mut [u8], at: usize, start: u32, entry: &MbrEntry)
    requires room { at + 16 ≤ length room.old }
    requires last { HasLast start entry.now }
    ensures { room.new ≡ written room.old at (joined (entry_fields 0 start entry.now)) }
{
    room[at..at + 16].copy_from_slice(&entry_bytes(start, entry));
}

/// The bytes at 440 to 511 of an image with this master boot record (UEFI 2.10, section 5.2.1).
pub fn mbr_bytes(spec: &MbrSpec) -> [u8; 72]
    requires { All (HasLast 0) spec.now.entries }
    ensures { (o : ℕ) → o < 72 → slice_index result o ≡ byte_of (mbr_fields spec.now) (440 + o) }
{
    let mut bytes = [0; 72];
    put_u32(&mut bytes, 0, spec.signature);
    put_entry(&mut bytes, 6, 0, &spec.entries[0]);
    put_entry(&mut bytes, 22, 0, &spec.entries[1]);
    put_entry(&mut bytes, 38, 0, &spec.entries[2]);
    put_entry(&mut bytes, 54, 0, &spec.entries[3]);
    bytes[70..].copy_from_slice(&MARK);
    bytes
}
