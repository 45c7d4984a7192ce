ghost use Rattle.std.specs.Prelude.{◌≡◌, ℕ, ◌+◌, ◌<◌, ◌^◌, ◌≤◌, length, IsErrOf, IfErr};
ghost use Rattle.outside.specs.Counts.{NoneFell, Rose};
ghost use Rattle.outside.specs.Reading.{Fills, span_of};

use crate::{FileErr, Files};

/// Why a buffer was not filled.
#[derive(Clone, Copy, Debug, PartialEq, Eq)]
pub enum FillFault {
    /// There is no file of that name.
    Missing,
    /// The file ends at or before the byte at `at`, the first that is needed and isn't there.
    Short { at: u64 },
    /// A call failed.
    Failed,
}

/// Fills the whole buffer with the bytes of a file from an offset on, however few of them one call gives. Asks
/// for nothing where the buffer is empty. After a fault the buffer may hold any bytes.
pub fn fill<F: Files>(files: &mut F, name: &str, off: u64, buf: &mut [u8]) -> Result<(), FillFault>
    requires { off + length buf.old < 2 ^ 64 }
    ensures none_fell { NoneFell (F.counts files.old) (F.counts files.new) }
    ensures failed { IsErrOf result FillFault.Failed → Rose (F.counts files.old).faults (F.counts files.new).faults }
    ensures missing { IsErrOf result FillFault.Missing → Rose (F.counts files.old).absences (F.counts files.new).absences }
    ensures ended { (at : ℕ) → IsErrOf result (FillFault.Short at) → Rose (F.counts files.old).ends (F.counts files.new).ends }
    ensures needed { (at : ℕ) → IsErrOf result (FillFault.Short at) → at < off + length buf.old }
    ensures not_before { (at : ℕ) → IsErrOf result (FillFault.Short at) → off ≤ at }
    ensures same_files { F.file files.new ≡ F.file files.old }
    ensures there { F.told → Fills (span_of (F.file files.old name.now) off (length buf.old)) buf.new result }
{
    let mut done = 0;
    while done < buf.len() {
        let at = off + done as u64;
        match files.read_at(name, at, &mut buf[done..]) {
            Ok(0) => return Err(FillFault::Short { at }),
            Ok(n) => done += n,
            Err(FileErr::Missing) => return Err(FillFault::Missing),
            Err(FileErr::Failed) => return Err(FillFault::Failed),
        }
    }
    Ok(())
}
