ghost use Rattle.std.specs.Prelude.{◌≡◌, ◌≢◌, ℕ, ◌+◌, ◌<◌, ◌≤◌, ◌^◌, All, Some, None, length, IsErrOf};
ghost use Rattle.outside.specs.Counts.{NoneFell, Rose};
ghost use Rattle.outside.specs.Files.{IsThere, OthersStay, bytes_of};
ghost use Rattle.image_layout.specs.IsLayout.{AreHoles, IsPart};
ghost use Rattle.image_parts.specs.Files.{IsNeeded, PartAnswers, PartsAnswer, PieceAnswers, part_of, source_in};

use base_fields::Span;
use image_layout::Placed;
use outside::{ComposeFault, Files, TransferFault, transfer};

/// Puts into the file `image`, which is there, the bytes of each partition's file in its place, without its holes,
/// in pieces of the buffer's length. After a fault nothing is said of that file, and the buffer may always hold any
/// bytes.
pub fn put_parts<F: Files>(
    files: &mut F,
    parts: &[Placed],
    image: &str,
    buf: &mut [u8],
) -> Result<(), ComposeFault>
    requires room { 0 < length buf.old }
    requires few { length parts.now ≤ 256 }
    requires placed { All (IsPart (2 ^ 43)) parts.now }
    requires apart { All (λ p. p.source ≢ Some image.now) parts.now }
    requires inside { F.told → IsThere (F.file files.old) image.now
        (All (λ p. p.at + p.len ≤ length (bytes_of (F.file files.old) image.now)) parts.now) }
    ensures none_fell { NoneFell (F.counts files.old) (F.counts files.new) }
    ensures failed { IsErrOf result ComposeFault.FileFault → Rose (F.counts files.old).faults (F.counts files.new).faults }
    ensures missing { (part : ℕ) → IsErrOf result (ComposeFault.Missing part) → Rose (F.counts files.old).absences (F.counts files.new).absences }
    ensures ended { (part at : ℕ) → IsErrOf result (ComposeFault.SourceShort part at) → Rose (F.counts files.old).ends (F.counts files.new).ends }
    ensures known { (part : ℕ) → IsErrOf result (ComposeFault.Missing part) → part < length parts.now }
    ensures short { (part at : ℕ) → IsErrOf result (ComposeFault.SourceShort part at) → part < length parts.now }
    ensures needed { (part at : ℕ) → IsErrOf result (ComposeFault.SourceShort part at) → IsNeeded (part_of parts.now part) at }
    ensures others { OthersStay image.now (F.file files.old) (F.file files.new) }
    ensures answers { F.told → PartsAnswer parts.now image.now (F.file files.old) (F.file files.new) result }
{
    for (k, part) in parts.iter().enumerate() {
        put_part(files, k as u32, part, image, buf)?;
    }
    Ok(())
}

/// Puts the bytes of one partition's file, where it has one.
fn put_part<F: Files>(
    files: &mut F,
    number: u32,
    part: &Placed,
    image: &str,
    buf: &mut [u8],
) -> Result<(), ComposeFault>
    requires room { 0 < length buf.old }
    requires placed { IsPart (2 ^ 43) part.now }
    requires apart { part.now.source ≢ Some image.now }
    requires inside { F.told → IsThere (F.file files.old) image.now (part.now.at + part.now.len ≤ length (bytes_of (F.file files.old) image.now)) }
    ensures none_fell { NoneFell (F.counts files.old) (F.counts files.new) }
    ensures failed { IsErrOf result ComposeFault.FileFault → Rose (F.counts files.old).faults (F.counts files.new).faults }
    ensures missing { (part : ℕ) → IsErrOf result (ComposeFault.Missing part) → Rose (F.counts files.old).absences (F.counts files.new).absences }
    ensures ended { (part at : ℕ) → IsErrOf result (ComposeFault.SourceShort part at) → Rose (F.counts files.old).ends (F.counts files.new).ends }
    ensures known { (k : ℕ) → IsErrOf result (ComposeFault.Missing k) → k ≡ number }
    ensures short { (k at : ℕ) → IsErrOf result (ComposeFault.SourceShort k at) → k ≡ number }
    ensures needed { (k at : ℕ) → IsErrOf result (ComposeFault.SourceShort k at) → IsNeeded part.now at }
    ensures others { OthersStay image.now (F.file files.old) (F.file files.new) }
    ensures answers { F.told → PartAnswers number (source_in (F.file files.old) part.now.source) part.now image.now (F.file files.old) (F.file files.new) result }
{
    match &part.source {
        None => Ok(()),
        Some(source) => {
            put_pieces(files, number, source.text(), part, image, buf)?;
            Ok(())
        }
    }
}

/// Puts the bytes of a partition's file between its holes, one piece after another.
fn put_pieces<F: Files>(
    files: &mut F,
    number: u32,
    source: &str,
    part: &Placed,
    image: &str,
    buf: &mut [u8],
) -> Result<(), ComposeFault>
    requires room { 0 < length buf.old }
    requires placed { IsPart (2 ^ 43) part.now }
    requires apart { source.now ≢ image.now }
    requires inside { F.told → IsThere (F.file files.old) image.now (part.now.at + part.now.len ≤ length (bytes_of (F.file files.old) image.now)) }
    ensures none_fell { NoneFell (F.counts files.old) (F.counts files.new) }
    ensures failed { IsErrOf result ComposeFault.FileFault → Rose (F.counts files.old).faults (F.counts files.new).faults }
    ensures missing { (part : ℕ) → IsErrOf result (ComposeFault.Missing part) → Rose (F.counts files.old).absences (F.counts files.new).absences }
    ensures ended { (part at : ℕ) → IsErrOf result (ComposeFault.SourceShort part at) → Rose (F.counts files.old).ends (F.counts files.new).ends }
    ensures known { (k : ℕ) → IsErrOf result (ComposeFault.Missing k) → k ≡ number }
    ensures short { (k at : ℕ) → IsErrOf result (ComposeFault.SourceShort k at) → k ≡ number }
    ensures needed { (k at : ℕ) → IsErrOf result (ComposeFault.SourceShort k at) → IsNeeded part.now at }
    ensures others { OthersStay image.now (F.file files.old) (F.file files.new) }
    ensures answers { F.told → PartAnswers number (F.file files.old source.now) part.now image.now (F.file files.old) (F.file files.new) result }
{
    let mut from = 0;
    for hole in part.holes.as_slice() {
        let to = hole.at.min(part.len);
        put_piece(files, number, source, part.at, from, to, image, buf)?;
        from = hole.at + hole.len;
    }
    put_piece(files, number, source, part.at, from, part.len, image, buf)?;
    Ok(())
}

/// Puts the bytes of a file from one offset to another, where the file begins at a place of the image. None are
/// asked for where there are none between them.
fn put_piece<F: Files>(
    files: &mut F,
    number: u32,
    source: &str,
    place: u64,
    from: u64,
    to: u64,
    image: &str,
    buf: &mut [u8],
) -> Result<(), ComposeFault>
    requires room { 0 < length buf.old }
    requires apart { source.now ≢ image.now }
    requires end { place + to ≤ 2 ^ 43 }
    requires inside { F.told → IsThere (F.file files.old) image.now (place + to ≤ length (bytes_of (F.file files.old) image.now)) }
    ensures none_fell { NoneFell (F.counts files.old) (F.counts files.new) }
    ensures failed { IsErrOf result ComposeFault.FileFault → Rose (F.counts files.old).faults (F.counts files.new).faults }
    ensures missing { (part : ℕ) → IsErrOf result (ComposeFault.Missing part) → Rose (F.counts files.old).absences (F.counts files.new).absences }
    ensures ended { (part at : ℕ) → IsErrOf result (ComposeFault.SourceShort part at) → Rose (F.counts files.old).ends (F.counts files.new).ends }
    ensures known { (k : ℕ) → IsErrOf result (ComposeFault.Missing k) → k ≡ number }
    ensures short { (k at : ℕ) → IsErrOf result (ComposeFault.SourceShort k at) → k ≡ number }
    ensures needed { (k at : ℕ) → IsErrOf result (ComposeFault.SourceShort k at) → at < to }
    ensures not_before { (k at : ℕ) → IsErrOf result (ComposeFault.SourceShort k at) → from ≤ at }
    ensures others { OthersStay image.now (F.file files.old) (F.file files.new) }
    ensures answers { F.told → PieceAnswers number (F.file files.old source.now) place from to image.now (F.file files.old) (F.file files.new) result }
{
    if to <= from {
        return Ok(());
    }
    let run = Span {
        at: from,
        len: to - from,
    };
    match transfer(files, source, run, image, place + from, buf) {
        Ok(()) => Ok(()),
        Err(TransferFault::Missing) => Err(ComposeFault::Missing { part: number }),
        Err(TransferFault::Short { at }) => Err(ComposeFault::SourceShort { part: number, at }),
        Err(TransferFault::Failed) => Err(ComposeFault::FileFault),
        Err(TransferFault::NoMemory) => Err(ComposeFault::NoMemory),
    }
}
