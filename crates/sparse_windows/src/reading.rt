ghost use Rattle.std.specs.Prelude.{◌≡◌, ℕ, ◌+◌, ◌-◌, ◌*◌, ◌^◌, ◌<◌, ◌≤◌, IfErr, length, min};
ghost use Rattle.outside.specs.Counts.{NoneFell};
ghost use Rattle.sparse_windows.specs.Windows.{HasCause, ReadsWindow};

use outside::{ComposeFault, Files, FillFault, fill};

/// Fills the buffer with bytes of an image of `size` bytes from the offset `at` on: those of its file, and zeros behind
/// its end.
pub fn read_window<F: Files>(
    files: &mut F,
    from: &str,
    size: u64,
    at: u64,
    buf: &mut [u8],
) -> Result<(), ComposeFault>
    requires inside { at < size }
    requires size { size ≤ 2 ^ 43 }
    ensures none_fell { NoneFell (F.counts files.old) (F.counts files.new) }
    ensures cause { IfErr result (HasCause (F.counts files.old) (F.counts files.new)) }
    ensures same_files { F.file files.new ≡ F.file files.old }
    ensures there { F.told → ReadsWindow (F.file files.old from.now) at (min (length buf.old) (size - at)) (length buf.old) buf.new result }
{
    let len = (buf.len() as u64).min(size - at) as usize;
    fill_front(files, from, at, &mut buf[..len])?;
    buf[len..].fill(0);
    Ok(())
}

/// Fills a buffer with bytes of the one source.
fn fill_front<F: Files>(
    files: &mut F,
    from: &str,
    at: u64,
    buf: &mut [u8],
) -> Result<(), ComposeFault>
    requires { at + length buf.old < 2 ^ 64 }
    ensures none_fell { NoneFell (F.counts files.old) (F.counts files.new) }
    ensures cause { IfErr result (HasCause (F.counts files.old) (F.counts files.new)) }
    ensures same_files { F.file files.new ≡ F.file files.old }
    ensures there { F.told → ReadsWindow (F.file files.old from.now) at (length buf.old) (length buf.old) buf.new result }
{
    match fill(files, from, at, buf) {
        Ok(()) => Ok(()),
        Err(FillFault::Missing) => Err(ComposeFault::Missing { part: 0 }),
        Err(FillFault::Short { at }) => Err(ComposeFault::SourceShort { part: 0, at }),
        Err(FillFault::Failed) => Err(ComposeFault::FileFault),
    }
}
