ghost use Rattle.std.specs.Prelude.{◌≡◌, ◌≢◌, ℕ, ◌^◌, ◌<◌, ◌≤◌, length, slice_index};
ghost use Rattle.gpt_table.specs.Gpt.{GptFits, entries_byte, front_byte, back_byte, HasSectorSize, least_sectors, first_usable_of};

use crate::entry::{GptEntry, put_entries};
use crate::header::{GptHeader, head};
use base_fields::{List, crc32};

/// The bytes of all slots.
const ENTRIES_LEN: u64 = 16384;

/// What a table is made of.
#[derive(Debug, Drop)]
pub struct GptSpec {
    /// The disk's GUID, in the order of RFC 9562.
    pub disk: [u8; 16],
    /// The sectors of the disk.
    pub sectors: u64,
    /// The LBA of the entries in front.
    pub entries_at: u64,
    /// Whether the disk ends in a backup of the table.
    pub backup: bool,
    /// The entries in the order of their slots.
    pub entries: List<GptEntry>,
    /// The bytes of a sector, 512 or 4096.
    pub sector: u32,
}

/// The first 512 bytes of each header's sector; the rest of a larger sector is zeros.
#[derive(Clone, Copy, Debug, PartialEq, Eq)]
pub struct GptHeads {
    /// That of the header at LBA 1.
    pub front: [u8; 512],
    /// That of the header in the last sector, all zeros where there is no backup.
    pub back: [u8; 512],
}

impl GptSpec {
    ghost use Rattle.std.specs.Prelude.{true};
    ghost use Rattle.gpt_table.specs.Gpt.{entry_sectors, last_usable_of, front_header, back_header, sum_of_entries};

    /// The sectors that the 128 entries take.
    fn entry_sectors(&self) -> u64
        requires { HasSectorSize self.now }
        ensures { result ≡ entry_sectors self.now }
    {
        ENTRIES_LEN / u64::from(self.sector)
    }

    /// The LBA behind the entries in front, and at least that behind the front header.
    fn first_usable(&self) -> u64
        requires sector { HasSectorSize self.now }
        requires fits { first_usable_of self.now < 2 ^ 64 }
        ensures { result ≡ first_usable_of self.now }
    {
        (self.entries_at + self.entry_sectors()).max(2)
    }

    /// The LBA of the last sector that a partition may have.
    fn last_usable(&self) -> u64
        requires sector { HasSectorSize self.now }
        requires sectors { least_sectors self.now ≤ self.now.sectors }
        ensures { result ≡ last_usable_of self.now }
    {
        if self.backup {
            self.sectors - 2 - self.entry_sectors()
        } else {
            self.sectors - 1
        }
    }

    /// What the front header says.
    fn front_header(&self, entries_sum: u32) -> GptHeader
        requires sector { HasSectorSize self.now }
        requires sectors { least_sectors self.now ≤ self.now.sectors }
        requires fits { first_usable_of self.now < 2 ^ 64 }
        requires sum { entries_sum ≡ sum_of_entries self.now.entries }
        ensures { result ≡ front_header self.now }
    {
        GptHeader {
            own: 1,
            other: if self.backup { self.sectors - 1 } else { 1 },
            first_usable: self.first_usable(),
            last_usable: self.last_usable(),
            disk: self.disk,
            entries_at: self.entries_at,
            entries_sum,
        }
    }

    /// What the backup header says.
    fn back_header(&self, entries_sum: u32) -> GptHeader
        requires sector { HasSectorSize self.now }
        requires sectors { least_sectors self.now ≤ self.now.sectors }
        requires fits { first_usable_of self.now < 2 ^ 64 }
        requires sum { entries_sum ≡ sum_of_entries self.now.entries }
        requires backup { self.now.backup ≡ true }
        ensures { result ≡ back_header self.now }
    {
        GptHeader {
            own: self.sectors - 1,
            other: 1,
            first_usable: self.first_usable(),
            last_usable: self.last_usable(),
            disk: self.disk,
            entries_at: self.sectors - 1 - self.entry_sectors(),
            entries_sum,
        }
    }

    /// The first 512 bytes of the backup header's sector, zeros where there is no backup.
    fn back_head(&self, entries_sum: u32) -> [u8; 512]
        requires sector { HasSectorSize self.now }
        requires sectors { least_sectors self.now ≤ self.now.sectors }
        requires fits { first_usable_of self.now < 2 ^ 64 }
        requires sum { entries_sum ≡ sum_of_entries self.now.entries }
        ensures { (o : ℕ) → o < 512 → slice_index result o ≡ back_byte self.now o }
    {
        if !self.backup {
            return [0; 512];
        }
        head(&self.back_header(entries_sum))
    }
}

/// Fills `entries`, 16,384 bytes, with the 128 entries of a table, and gives the heads of its
/// headers (UEFI 2.10, section 5.3). The same entries stand in front and in the backup.
pub fn gpt(spec: &GptSpec, entries: &mut [u8]) -> GptHeads
    requires room { length entries.old ≡ 16384 }
    requires few { length spec.now.entries ≤ 128 }
    requires sector { HasSectorSize spec.now }
    requires sectors { least_sectors spec.now ≤ spec.now.sectors }
    requires fits { first_usable_of spec.now < 2 ^ 64 }
    ensures entries { (o : ℕ) → o < 16384 → slice_index entries.new o ≡ entries_byte spec.now.entries o }
    ensures front { (o : ℕ) → o < 512 → slice_index result.front o ≡ front_byte spec.now o }
    ensures back { (o : ℕ) → o < 512 → slice_index result.back o ≡ back_byte spec.now o }
    ensures readable { spec.now.entries_at ≢ 0 → GptFits spec.now }
{
    put_entries(spec.entries.as_slice(), entries);
    let sum = crc32(entries);
    GptHeads {
        front: head(&spec.front_header(sum)),
        back: spec.back_head(sum),
    }
}
