ghost use Rattle.std.specs.Prelude.{◌≡◌, ◌^◌, ◌<◌, IfSome};
ghost use Rattle.table_reading.specs.Record.{boot_record_in, logical_in};

use crate::first_sector::{is_marked, read_entry};
use mbr_table::MbrEntry;

/// How many numbers a field of four bytes can hold.
const NUMBERS: u64 = 1 << 32;

/// What a boot record of an extended partition says.
#[derive(Clone, Copy, Debug, PartialEq, Eq)]
pub struct BootRecord {
    /// The logical partition, in sectors of the disk.
    pub logical: MbrEntry,
    /// The sector of the next record, where there is one.
    pub next: Option<u64>,
}

/// The entry of the record in a sector, counted from the start of the disk.
fn logical_entry(bytes: &[u8; 512], sector: u64) -> MbrEntry
    requires { sector < 2 ^ 33 }
    ensures { result ≡ logical_in sector bytes.now }
{
    let own = read_entry(bytes, 446);
    MbrEntry {
        active: own.active,
        kind: own.kind,
        first: ((sector + u64::from(own.first)) % NUMBERS) as u32,
        count: own.count,
    }
}

/// What the boot record in a sector says, in the extended partition that begins in the sector `start`. None where the
/// record is a bad one.
pub fn read_record(bytes: &[u8; 512], start: u32, sector: u64) -> Option<BootRecord>
    requires { sector < 2 ^ 33 }
    ensures exact { result ≡ boot_record_in start sector bytes.now }
    ensures near { IfSome result (λ boot. IfSome boot.next (λ next. next < 2 ^ 33)) }
{
    if !is_marked(bytes) || read_entry(bytes, 446).is_empty() {
        return None;
    }
    let logical = logical_entry(bytes, sector);
    let link = read_entry(bytes, 462);
    if link.is_empty() {
        return Some(BootRecord {
            logical,
            next: None,
        });
    }
    let next = u64::from(start) + u64::from(link.first);
    if next <= sector {
        return None;
    }
    Some(BootRecord {
        logical,
        next: Some(next),
    })
}
