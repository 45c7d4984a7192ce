//! Parts of a file whose length is known.
ghost use Rattle.std.specs.Prelude.{◌≡◌, ◌+◌, ◌^◌, ◌<◌, ◌≤◌, IfErr, OnOk, length};
ghost use Rattle.outside.specs.Counts.{NoneFell};
ghost use Rattle.outside.specs.Files.{IsThere, bytes_of};
ghost use Rattle.table_reader.specs.Answers.{HasCause, HasLength, Reads};
ghost use Rattle.table_reader.specs.Parts.{part_of};

use crate::TableFault;
use outside::{FileErr, Files, FillFault, fill};

/// How many bytes the file of that name has.
pub fn length_of<F: Files>(files: &mut F, name: &str) -> Result<u64, TableFault>
    ensures none_fell { NoneFell (F.counts files.old) (F.counts files.new) }
    ensures cause { IfErr result (HasCause (F.counts files.old) (F.counts files.new)) }
    ensures same_files { F.file files.new ≡ F.file files.old }
    ensures there { F.told → HasLength (F.file files.old) name.now result }
{
    match files.length(name) {
        Ok(len) => Ok(len),
        Err(FileErr::Missing) => Err(TableFault::Missing),
        Err(FileErr::Failed) => Err(TableFault::FileFault),
    }
}

/// Fills the buffer with the bytes from `at` on of a file that has `len` bytes.
pub fn read_part<F: Files>(
    files: &mut F,
    name: &str,
    len: u64,
    at: u128,
    buf: &mut [u8],
) -> Result<(), TableFault>
    requires some { 0 < length buf.old }
    requires near { at < 2 ^ 100 }
    requires there { F.told → IsThere (F.file files.old) name.now (len ≡ length (bytes_of (F.file files.old) name.now)) }
    ensures none_fell { NoneFell (F.counts files.old) (F.counts files.new) }
    ensures cause { IfErr result (HasCause (F.counts files.old) (F.counts files.new)) }
    ensures same_files { F.file files.new ≡ F.file files.old }
    ensures inside { OnOk result (at + length buf.old ≤ len) }
    ensures there { F.told → Reads (part_of (bytes_of (F.file files.old) name.now) at (length buf.old)) buf.new result }
{
    if at + buf.len() as u128 > u128::from(len) {
        return Err(TableFault::Short { at: len });
    }
    match fill(files, name, at as u64, buf) {
        Ok(()) => Ok(()),
        Err(FillFault::Missing) => Err(TableFault::Missing),
        Err(FillFault::Short { .. }) => Err(TableFault::Short { at: len }),
        Err(FillFault::Failed) => Err(TableFault::FileFault),
    }
}
