//! The chain of boot records of an extended partition.
ghost use Rattle.std.specs.Prelude.{◌≡◌, ◌^◌, ◌<◌, ◌≤◌, IfErr, IfOk, IfSome, length};
ghost use Rattle.outside.specs.Counts.{NoneFell};
ghost use Rattle.outside.specs.Files.{IsThere, bytes_of};
ghost use Rattle.table_reader.specs.Answers.{Answers, HasCause};
ghost use Rattle.table_reader.specs.Chain.{boot_at, chain_of, logical_of};

use crate::TableFault;
use crate::parts::read_part;
use base_fields::List;
use mbr_table::{MbrEntry, MbrSpec};
use outside::Files;
use std::alloc::Global;
use table_reading::{BootRecord, extended_slot, read_record};

/// The bytes of a sector of an image with a chain.
const SECTOR: u64 = 512;

/// How many records a chain may have.
const RECORDS: u32 = 256;

/// The boot record in a sector, in the extended partition that begins in the sector `start`.
fn read_boot<F: Files>(
    files: &mut F,
    name: &str,
    len: u64,
    start: u32,
    sector: u64,
) -> Result<BootRecord, TableFault>
    requires near { sector < 2 ^ 33 }
    requires there { F.told → IsThere (F.file files.old) name.now (len ≡ length (bytes_of (F.file files.old) name.now)) }
    ensures none_fell { NoneFell (F.counts files.old) (F.counts files.new) }
    ensures cause { IfErr result (HasCause (F.counts files.old) (F.counts files.new)) }
    ensures same_files { F.file files.new ≡ F.file files.old }
    ensures near { IfOk result (λ boot. IfSome boot.next (λ next. next < 2 ^ 33)) }
    ensures answers { F.told → Answers (boot_at (bytes_of (F.file files.old) name.now) start sector) result }
{
    let mut bytes = [0; 512];
    read_part(files, name, len, u128::from(SECTOR * sector), &mut bytes)?;
    match read_record(&bytes, start, sector) {
        Some(boot) => Ok(boot),
        None => Err(TableFault::BadChain {
            at: SECTOR * sector,
        }),
    }
}

/// The logical partitions of the extended partition that begins in the sector `start`, of a file that has `len` bytes.
/// The 257th record is a bad one, and isn't read.
fn read_chain<F: Files>(
    alloc: Global,
    files: &mut F,
    name: &str,
    len: u64,
    start: u32,
) -> Result<List<MbrEntry>, TableFault>
    requires there { F.told → IsThere (F.file files.old) name.now (len ≡ length (bytes_of (F.file files.old) name.now)) }
    ensures none_fell { NoneFell (F.counts files.old) (F.counts files.new) }
    ensures cause { IfErr result (HasCause (F.counts files.old) (F.counts files.new)) }
    ensures same_files { F.file files.new ≡ F.file files.old }
    ensures few { IfOk result (λ logical. length logical ≤ 256) }
    ensures answers { F.told → Answers (chain_of (bytes_of (F.file files.old) name.now) start) result }
{
    let mut logical = List::new(alloc);
    let mut sector = u64::from(start);
    let mut left = RECORDS;
    while left > 0 {
        let boot = read_boot(files, name, len, start, sector)?;
        logical.push(boot.logical)?;
        left -= 1;
        match boot.next {
            Some(next) => sector = next,
            None => return Ok(logical),
        }
    }
    Err(TableFault::BadChain {
        at: SECTOR * sector,
    })
}

/// The logical partitions beside a master boot record: none where no slot is that of an extended partition.
pub fn read_logical<F: Files>(
    alloc: Global,
    files: &mut F,
    name: &str,
    len: u64,
    spec: &MbrSpec,
) -> Result<List<MbrEntry>, TableFault>
    requires there { F.told → IsThere (F.file files.old) name.now (len ≡ length (bytes_of (F.file files.old) name.now)) }
    ensures none_fell { NoneFell (F.counts files.old) (F.counts files.new) }
    ensures cause { IfErr result (HasCause (F.counts files.old) (F.counts files.new)) }
    ensures same_files { F.file files.new ≡ F.file files.old }
    ensures few { IfOk result (λ logical. length logical ≤ 256) }
    ensures answers { F.told → Answers (logical_of (bytes_of (F.file files.old) name.now) spec.now) result }
{
    let slot = extended_slot(spec);
    if slot == 0 {
        return Ok(List::new(alloc));
    }
    let start = spec.entries[slot as usize - 1].first;
    let logical = read_chain(alloc, files, name, len, start)?;
    Ok(logical)
}
