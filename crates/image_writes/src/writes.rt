ghost use Rattle.std.specs.Prelude.{◌≡◌, ℕ, ◌+◌, ◌<◌, ◌≤◌, length, slice_index, IsErrOf, OnOk};
ghost use Rattle.outside.specs.Counts.{NoneFell, Rose};
ghost use Rattle.outside.specs.Files.{IsThere, OthersStay, bytes_of};
ghost use Rattle.image_writes.specs.Images.{IsFilled, PutsRun, Serves};

use outside::{Files, WriteErr};

/// Puts bytes at a place within a file that is there. After a fault nothing is said of that file.
pub fn put_bytes<F: Files>(files: &mut F, name: &str, at: u64, bytes: &[u8]) -> Result<(), WriteErr>
    requires there { F.told → IsThere (F.file files.old) name.now (at + length bytes.now ≤ length (bytes_of (F.file files.old) name.now)) }
    ensures none_fell { NoneFell (F.counts files.old) (F.counts files.new) }
    ensures failed { IsErrOf result WriteErr.Failed → Rose (F.counts files.old).faults (F.counts files.new).faults }
    ensures others { OthersStay name.now (F.file files.old) (F.file files.new) }
    ensures puts { F.told → OnOk result (PutsRun at bytes.now name.now (F.file files.old) (F.file files.new)) }
{
    files.write_at(name, at, bytes)?;
    Ok(())
}

/// Makes or replaces a file with so many bytes of one value. Zeros aren't written. After a fault nothing is said of
/// that file, and the buffer may always hold any bytes.
pub fn make_image<F: Files>(
    files: &mut F,
    name: &str,
    size: u64,
    byte: u8,
    buf: &mut [u8],
) -> Result<(), WriteErr>
    requires room { 0 < length buf.old }
    ensures none_fell { NoneFell (F.counts files.old) (F.counts files.new) }
    ensures failed { IsErrOf result WriteErr.Failed → Rose (F.counts files.old).faults (F.counts files.new).faults }
    ensures others { OthersStay name.now (F.file files.old) (F.file files.new) }
    ensures made { F.told → OnOk result (IsFilled size byte name.now (F.file files.new)) }
{
    files.create(name, size)?;
    if byte == 0 {
        return Ok(());
    }
    buf.fill(byte);
    fill_image(files, name, size, byte, buf)?;
    Ok(())
}

/// Puts one byte at each offset below the size, in pieces of the buffer's length, which holds that byte alone.
fn fill_image<F: Files>(
    files: &mut F,
    name: &str,
    size: u64,
    byte: u8,
    buf: &[u8],
) -> Result<(), WriteErr>
    requires room { 0 < length buf.now }
    requires same { (i : ℕ) → i < length buf.now → slice_index buf.now i ≡ byte }
    requires there { F.told → IsThere (F.file files.old) name.now (size ≤ length (bytes_of (F.file files.old) name.now)) }
    ensures none_fell { NoneFell (F.counts files.old) (F.counts files.new) }
    ensures failed { IsErrOf result WriteErr.Failed → Rose (F.counts files.old).faults (F.counts files.new).faults }
    ensures others { OthersStay name.now (F.file files.old) (F.file files.new) }
    ensures filled { F.told → OnOk result
        (Serves (λ (o : ℕ). byte) (λ (o : ℕ). o < size) name.now (F.file files.old) (F.file files.new)) }
{
    let room = buf.len() as u64;
    let mut done = 0;
    while done < size {
        let piece = (size - done).min(room);
        put_bytes(files, name, done, &buf[..piece as usize])?;
        done += piece;
    }
    Ok(())
}
