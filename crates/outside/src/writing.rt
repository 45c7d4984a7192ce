ghost use Rattle.std.specs.Prelude.{◌≡◌, ◌≢◌, ℕ, ◌+◌, ◌<◌, ◌^◌, ◌≤◌, length, IsErrOf};
ghost use Rattle.outside.specs.Counts.{NoneFell, Rose};
ghost use Rattle.outside.specs.Files.{IsThere, OthersStay, bytes_of};
ghost use Rattle.outside.specs.Reading.{span_of};
ghost use Rattle.outside.specs.Writing.{Transfers};

use crate::{Files, FillFault, WriteErr, fill};
use base_fields::Span;

/// Why a run of bytes was not copied.
#[derive(Clone, Copy, Debug, PartialEq, Eq)]
pub enum TransferFault {
    /// There is no file of the source's name.
    Missing,
    /// The source ends at or before the byte at `at`, the first that is needed and isn't there.
    Short { at: u64 },
    /// A call failed.
    Failed,
    /// Memory was refused.
    NoMemory,
}

/// Copies the run `from` of bytes of the file `source` to the place `to` of the file `target`, in pieces of the
/// buffer's length. Asks for nothing where the run is empty. After a fault `target` may hold any bytes, and the
/// buffer may always.
pub fn transfer<F: Files>(
    files: &mut F,
    source: &str,
    from: Span,
    target: &str,
    to: u64,
    buf: &mut [u8],
) -> Result<(), TransferFault>
    requires room { 0 < length buf.old }
    requires apart { source.now ≢ target.now }
    requires reads { from.at + from.len < 2 ^ 64 }
    requires writes { to + from.len < 2 ^ 64 }
    requires there { F.told → IsThere (F.file files.old) target.now (to ≤ length (bytes_of (F.file files.old) target.now)) }
    ensures none_fell { NoneFell (F.counts files.old) (F.counts files.new) }
    ensures failed { IsErrOf result TransferFault.Failed → Rose (F.counts files.old).faults (F.counts files.new).faults }
    ensures missing { IsErrOf result TransferFault.Missing → Rose (F.counts files.old).absences (F.counts files.new).absences }
    ensures ended { (at : ℕ) → IsErrOf result (TransferFault.Short at) → Rose (F.counts files.old).ends (F.counts files.new).ends }
    ensures needed { (at : ℕ) → IsErrOf result (TransferFault.Short at) → at < from.at + from.len }
    ensures not_before { (at : ℕ) → IsErrOf result (TransferFault.Short at) → from.at ≤ at }
    ensures others { OthersStay target.now (F.file files.old) (F.file files.new) }
    ensures there { F.told → Transfers (span_of (F.file files.old source.now) from.at from.len) target.now to (F.file files.old) (F.file files.new) result }
{
    let room = buf.len() as u64;
    let mut done = 0;
    while done < from.len {
        let piece = (from.len - done).min(room);
        let part = &mut buf[..piece as usize];
        transfer_piece(files, source, from.at + done, target, to + done, part)?;
        done += piece;
    }
    Ok(())
}

/// Copies as many bytes as the buffer has.
fn transfer_piece<F: Files>(
    files: &mut F,
    source: &str,
    at: u64,
    target: &str,
    to: u64,
    buf: &mut [u8],
) -> Result<(), TransferFault>
    requires reads { at + length buf.old < 2 ^ 64 }
    requires there { F.told → IsThere (F.file files.old) target.now (to ≤ length (bytes_of (F.file files.old) target.now)) }
    ensures none_fell { NoneFell (F.counts files.old) (F.counts files.new) }
    ensures failed { IsErrOf result TransferFault.Failed → Rose (F.counts files.old).faults (F.counts files.new).faults }
    ensures missing { IsErrOf result TransferFault.Missing → Rose (F.counts files.old).absences (F.counts files.new).absences }
    ensures ended { (at : ℕ) → IsErrOf result (TransferFault.Short at) → Rose (F.counts files.old).ends (F.counts files.new).ends }
    ensures needed { (short : ℕ) → IsErrOf result (TransferFault.Short short) → short < at + length buf.old }
    ensures not_before { (short : ℕ) → IsErrOf result (TransferFault.Short short) → at ≤ short }
    ensures others { OthersStay target.now (F.file files.old) (F.file files.new) }
    ensures there { F.told → Transfers (span_of (F.file files.old source.now) at (length buf.old)) target.now to (F.file files.old) (F.file files.new) result }
{
    match fill(files, source, at, buf) {
        Ok(()) => {}
        Err(FillFault::Missing) => return Err(TransferFault::Missing),
        Err(FillFault::Short { at }) => return Err(TransferFault::Short { at }),
        Err(FillFault::Failed) => return Err(TransferFault::Failed),
    }
    match files.write_at(target, to, buf) {
        Ok(()) => Ok(()),
        Err(WriteErr::Failed) => Err(TransferFault::Failed),
        Err(WriteErr::NoMemory) => Err(TransferFault::NoMemory),
    }
}
