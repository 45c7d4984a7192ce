//! The text of a file.
ghost use Rattle.std.specs.Prelude.{◌≡◌, IfErr, IfOk, length};
ghost use Rattle.job_stages.specs.Stages.{Gives};
ghost use Rattle.outside.specs.Counts.{NoneFell};
ghost use Rattle.outside.specs.Files.{IsThere, bytes_of};
ghost use Rattle.base_fields.specs.Results.{or_else};
ghost use Rattle.map_source.specs.Faults.{IsShown, is_counted};
ghost use Rattle.map_source.specs.Said.{HasLength, text_said};

use crate::SourceFault;
use base_fields::{Bytes, NoMemory};
use outside::{FileErr, Files, FillFault, fill};
use std::alloc::Global;

/// How many bytes a text may have.
const MOST_BYTES: u64 = 33_554_432;

/// How many bytes the file of that name has.
fn length_of<F: Files>(files: &mut F, name: &str) -> Result<u64, SourceFault>
    ensures none_fell { NoneFell (F.counts files.old) (F.counts files.new) }
    ensures same_files { F.file files.new ≡ F.file files.old }
    ensures cause { IfErr result (IsShown (F.counts files.old) (F.counts files.new)) }
    ensures there { F.told → HasLength (F.file files.old) name.now result }
{
    match files.length(name) {
        Ok(len) => Ok(len),
        Err(FileErr::Missing) => Err(SourceFault::Missing),
        Err(FileErr::Failed) => Err(SourceFault::FileFault),
    }
}

/// Room for so many bytes.
fn room_of(alloc: Global, len: usize) -> Result<Vec<u8>, NoMemory>
    ensures { IfOk result (λ room. length room.items ≡ len) }
{
    Ok(vec![in alloc; 0; len]?)
}

/// All bytes of the file of that name, which has `len` of them. Takes their memory.
fn read_bytes<F: Files>(
    alloc: Global,
    files: &mut F,
    name: &str,
    len: u64,
) -> Result<Bytes, SourceFault>
    requires there { F.told →
        IsThere (F.file files.old) name.now (len ≡ length (bytes_of (F.file files.old) name.now)) }
    ensures none_fell { NoneFell (F.counts files.old) (F.counts files.new) }
    ensures same_files { F.file files.new ≡ F.file files.old }
    ensures cause { IfErr result (IsShown (F.counts files.old) (F.counts files.new)) }
    ensures there { F.told →
        Gives is_counted (or_else (F.file files.old name.now) SourceFault.Missing) (λ bytes. bytes) (λ fault. fault) result }
{
    let Ok(mut text) = room_of(alloc, len as usize) else {
        return Err(SourceFault::NoMemory);
    };
    match fill(files, name, 0, &mut text) {
        Ok(()) => Ok(Bytes::from_vec(text)),
        Err(FillFault::Missing) => Err(SourceFault::Missing),
        Err(FillFault::Short { at }) => Err(SourceFault::SourceShort { at }),
        Err(FillFault::Failed) => Err(SourceFault::FileFault),
    }
}

/// The text of the file of that name. Its length is asked for first, and no byte of one that is too long is read. Takes
/// the memory of the whole text.
pub fn read_text<F: Files>(alloc: Global, files: &mut F, name: &str) -> Result<Bytes, SourceFault>
    ensures none_fell { NoneFell (F.counts files.old) (F.counts files.new) }
    ensures same_files { F.file files.new ≡ F.file files.old }
    ensures cause { IfErr result (IsShown (F.counts files.old) (F.counts files.new)) }
    ensures said { F.told →
        Gives is_counted (text_said (F.file files.old name.now)) (λ text. text) (λ fault. fault) result }
{
    let len = length_of(files, name)?;
    if len > MOST_BYTES {
        return Err(SourceFault::BadMap { place: MOST_BYTES });
    }
    let text = read_bytes(alloc, files, name, len)?;
    Ok(text)
}
