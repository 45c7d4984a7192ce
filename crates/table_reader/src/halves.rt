//! A header of a GUID partition table with its entries.
ghost use Rattle.std.specs.Prelude.{◌≡◌, ◌+◌, ◌*◌, ◌^◌, ◌<◌, ◌≤◌, IfErr, IfOk, OnOk, length};
ghost use Rattle.outside.specs.Counts.{Counts, NoneFell};
ghost use Rattle.outside.specs.Files.{IsThere, bytes_of};
ghost use Rattle.table_reader.specs.Answers.{Answers, HasCause, Reads};
ghost use Rattle.table_reader.specs.Halves.{ReadsHalf, entries_at as start_of, entries_of, half_of, header_of, refusal_at as refusal_of};
ghost use Rattle.table_reading.specs.Header.{IsHeaderFault};

use crate::TableFault;
use crate::parts::read_part;
use base_fields::crc32;
use outside::Files;
use table_reading::{HeaderFault, check_header, read_long, read_number};

/// The bytes of all entries.
pub const ENTRIES_LEN: usize = 16_384;

/// The refusal of a header that begins at an offset.
fn refusal_at(at: u64, fault: HeaderFault) -> TableFault
    requires near { at + 92 < 2 ^ 64 }
    requires fault { IsHeaderFault fault }
    ensures exact { result ≡ refusal_of at fault }
    ensures cause { (before now : Counts) → HasCause before now result }
{
    match fault {
        HeaderFault::Field { at: field } => TableFault::BadGpt { at: at + field },
        HeaderFault::Sum { stated, computed } => TableFault::BadSum {
            at: at + 16,
            want: stated,
            got: computed,
        },
    }
}

/// The header at the LBA `own` of a file that has `len` bytes.
fn read_header<F: Files>(
    files: &mut F,
    name: &str,
    len: u64,
    sector: u32,
    own: u64,
    is_backup: bool,
) -> Result<[u8; 92], TableFault>
    requires there { F.told → IsThere (F.file files.old) name.now (len ≡ length (bytes_of (F.file files.old) name.now)) }
    ensures none_fell { NoneFell (F.counts files.old) (F.counts files.new) }
    ensures cause { IfErr result (HasCause (F.counts files.old) (F.counts files.new)) }
    ensures same_files { F.file files.new ≡ F.file files.old }
    ensures inside { OnOk result (own * sector + 92 ≤ len) }
    ensures answers { F.told → Answers (header_of (bytes_of (F.file files.old) name.now) sector own is_backup) result }
{
    let mut head = [0; 92];
    let at = u128::from(own) * u128::from(sector);
    read_part(files, name, len, at, &mut head)?;
    match check_header(&head, own, is_backup) {
        None => Ok(head),
        Some(fault) => Err(refusal_at(at as u64, fault)),
    }
}

/// Fills the room with the entries of the header that begins at the offset `at`.
fn read_entries<F: Files>(
    files: &mut F,
    name: &str,
    len: u64,
    sector: u32,
    at: u64,
    head: &[u8; 92],
    room: &mut [u8],
) -> Result<(), TableFault>
    requires room { length room.old ≡ 16384 }
    requires near { at + 92 < 2 ^ 64 }
    requires there { F.told → IsThere (F.file files.old) name.now (len ≡ length (bytes_of (F.file files.old) name.now)) }
    ensures none_fell { NoneFell (F.counts files.old) (F.counts files.new) }
    ensures cause { IfErr result (HasCause (F.counts files.old) (F.counts files.new)) }
    ensures same_files { F.file files.new ≡ F.file files.old }
    ensures inside { OnOk result (start_of head.now sector + 16384 ≤ len) }
    ensures there { F.told → Reads (entries_of (bytes_of (F.file files.old) name.now) sector at head.now) room.new result }
{
    let entries_at = u128::from(read_long(head, 72)) * u128::from(sector);
    read_part(files, name, len, entries_at, room)?;
    let stated = read_number(head, 88);
    let computed = crc32(room);
    if stated != computed {
        return Err(TableFault::BadSum {
            at: at + 88,
            want: stated,
            got: computed,
        });
    }
    Ok(())
}

/// The header at the LBA `own`, whose entries fill the room.
pub fn read_half<F: Files>(
    files: &mut F,
    name: &str,
    len: u64,
    sector: u32,
    own: u64,
    is_backup: bool,
    room: &mut [u8],
) -> Result<[u8; 92], TableFault>
    requires room { length room.old ≡ 16384 }
    requires there { F.told → IsThere (F.file files.old) name.now (len ≡ length (bytes_of (F.file files.old) name.now)) }
    ensures none_fell { NoneFell (F.counts files.old) (F.counts files.new) }
    ensures cause { IfErr result (HasCause (F.counts files.old) (F.counts files.new)) }
    ensures same_files { F.file files.new ≡ F.file files.old }
    ensures inside { OnOk result (own * sector + 92 ≤ len) }
    ensures entries_inside { IfOk result (λ head. start_of head sector + 16384 ≤ len) }
    ensures there { F.told → ReadsHalf (half_of (bytes_of (F.file files.old) name.now) sector own is_backup) room.new result }
{
    let head = read_header(files, name, len, sector, own, is_backup)?;
    read_entries(
        files,
        name,
        len,
        sector,
        own * u64::from(sector),
        &head,
        room,
    )?;
    Ok(head)
}
