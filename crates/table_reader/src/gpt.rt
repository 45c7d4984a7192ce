//! A GUID partition table with its backup.
ghost use Rattle.std.specs.Prelude.{◌≡◌, ◌+◌, ◌*◌, ◌^◌, ◌<◌, ◌≤◌, IfErr, IfOk, length};
ghost use Rattle.outside.specs.Counts.{NoneFell};
ghost use Rattle.outside.specs.Files.{IsThere, bytes_of};
ghost use Rattle.table_reader.specs.Answers.{Answers, HasCause, IsBadGpt};
ghost use Rattle.table_reader.specs.Halves.{backup_of, entries_at, gpt_of, half, unlike};
ghost use Rattle.table_reader.specs.Parts.{unless};
ghost use Rattle.table_reader.specs.Tables.{IsGpt};

use crate::TableFault;
use crate::halves::{ENTRIES_LEN, read_half};
use gpt_reading::{GptTable, field_unlike, first_unlike, read_table};
use outside::Files;
use std::alloc::Global;
use table_reading::read_long;

/// That the header and the entries of a backup at the LBA `own` say of the disk what those in front say.
fn compare(
    sector: u32,
    own: u64,
    head: &[u8; 92],
    entries: &[u8],
    back: &[u8; 92],
    copies: &[u8],
) -> Result<(), TableFault>
    requires room { length copies.now ≡ 16384 }
    requires own { own * sector + 92 < 2 ^ 64 }
    requires inside { entries_at back.now sector + 16384 < 2 ^ 64 }
    ensures exact { result ≡ unless (unlike sector own (half head.now entries.now) (half back.now copies.now)) tt }
    ensures fault { IfErr result IsBadGpt }
{
    if let Some(field) = field_unlike(head, back) {
        return Err(TableFault::BadGpt {
            at: own * u64::from(sector) + field,
        });
    }
    if let Some(k) = first_unlike(entries, copies) {
        let start = read_long(back, 72) * u64::from(sector);
        return Err(TableFault::BadGpt {
            at: start + k as u64,
        });
    }
    Ok(())
}

/// The backup that a header in front names, which is none where it names itself.
fn read_backup<F: Files>(
    files: &mut F,
    name: &str,
    len: u64,
    sector: u32,
    head: &[u8; 92],
    entries: &[u8],
) -> Result<(), TableFault>
    requires there { F.told → IsThere (F.file files.old) name.now (len ≡ length (bytes_of (F.file files.old) name.now)) }
    ensures none_fell { NoneFell (F.counts files.old) (F.counts files.new) }
    ensures cause { IfErr result (HasCause (F.counts files.old) (F.counts files.new)) }
    ensures same_files { F.file files.new ≡ F.file files.old }
    ensures answers { F.told → Answers (backup_of (bytes_of (F.file files.old) name.now) sector (half head.now entries.now)) result }
{
    let own = read_long(head, 32);
    if own == 1 {
        return Ok(());
    }
    let mut copies = [0; ENTRIES_LEN];
    let back = read_half(files, name, len, sector, own, true, &mut copies)?;
    compare(sector, own, head, entries, &back, &copies)?;
    Ok(())
}

/// The table of a file that has `len` bytes, its front header being at LBA 1.
pub fn read_gpt<F: Files>(
    alloc: Global,
    files: &mut F,
    name: &str,
    len: u64,
    sector: u32,
) -> Result<GptTable, TableFault>
    requires there { F.told → IsThere (F.file files.old) name.now (len ≡ length (bytes_of (F.file files.old) name.now)) }
    ensures none_fell { NoneFell (F.counts files.old) (F.counts files.new) }
    ensures cause { IfErr result (HasCause (F.counts files.old) (F.counts files.new)) }
    ensures same_files { F.file files.new ≡ F.file files.old }
    ensures form { IfOk result IsGpt }
    ensures answers { F.told → Answers (gpt_of (bytes_of (F.file files.old) name.now) sector) result }
{
    let mut entries = [0; ENTRIES_LEN];
    let head = read_half(files, name, len, sector, 1, false, &mut entries)?;
    read_backup(files, name, len, sector, &head, &entries)?;
    let table = read_table(alloc, &head, &entries)?;
    Ok(table)
}
