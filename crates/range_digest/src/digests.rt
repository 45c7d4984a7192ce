ghost use Rattle.std.specs.Prelude.{◌≡◌, ℕ, ◌+◌, ◌<◌, ◌≤◌, ◌^◌, length, IsErrOf};
ghost use Rattle.outside.specs.Counts.{NoneFell, Rose};
ghost use Rattle.outside.specs.Reading.{span_of};
ghost use Rattle.region_pool.specs.Buffers.{free_of};
ghost use Rattle.region_pool.specs.Uses.{IsGivenBack};
ghost use Rattle.range_digest.specs.Digests.{Adds, Digests};

use base_fields::Span;
use outside::{Files, FillFault, fill};
use region_pool::Pool;
use sha2::{Digest, Sha256};

/// Why a span has no digest.
#[derive(Clone, Copy, Debug, PartialEq, Eq)]
pub enum DigestFault {
    /// There is no file of that name.
    Missing,
    /// The file ends at or before the byte at `at`, the first of the span that isn't there.
    SourceShort { at: u64 },
    /// A call on the files failed.
    FileFault,
}

/// The SHA-256 digest of a span of a file's bytes, which is read in order through one leased buffer. Takes no
/// memory. Asks for nothing where the span is empty. The buffer is given back whatever is answered, and holds any
/// bytes then.
pub fn digest_of<F: Files>(
    files: &mut F,
    name: &str,
    span: Span,
    pool: &mut Pool,
) -> Result<[u8; 32], DigestFault>
    requires free { 0 < free_of pool.old }
    requires reads { span.at + span.len < 2 ^ 64 }
    ensures none_fell { NoneFell (F.counts files.old) (F.counts files.new) }
    ensures failed { IsErrOf result DigestFault.FileFault → Rose (F.counts files.old).faults (F.counts files.new).faults }
    ensures missing { IsErrOf result DigestFault.Missing → Rose (F.counts files.old).absences (F.counts files.new).absences }
    ensures ended { (at : ℕ) → IsErrOf result (DigestFault.SourceShort at) → Rose (F.counts files.old).ends (F.counts files.new).ends }
    ensures needed { (at : ℕ) → IsErrOf result (DigestFault.SourceShort at) → at < span.at + span.len }
    ensures not_before { (at : ℕ) → IsErrOf result (DigestFault.SourceShort at) → span.at ≤ at }
    ensures same_files { F.file files.new ≡ F.file files.old }
    ensures unasked { span.len ≡ 0 → files.new ≡ files.old }
    ensures exact { F.told → Digests (span_of (F.file files.old name.now) span.at span.len) result }
    ensures given_back { IsGivenBack pool.old pool.new }
{
    let Some(lease) = pool.lease() else {
        unreachable!()
    };
    let answer = digest_through(files, name, span, pool.bytes_mut(&lease));
    pool.give(lease);
    answer
}

/// The digest of a span, which is read in pieces of the buffer's length.
fn digest_through<F: Files>(
    files: &mut F,
    name: &str,
    span: Span,
    buf: &mut [u8],
) -> Result<[u8; 32], DigestFault>
    requires room { 0 < length buf.old }
    requires reads { span.at + span.len < 2 ^ 64 }
    ensures none_fell { NoneFell (F.counts files.old) (F.counts files.new) }
    ensures failed { IsErrOf result DigestFault.FileFault → Rose (F.counts files.old).faults (F.counts files.new).faults }
    ensures missing { IsErrOf result DigestFault.Missing → Rose (F.counts files.old).absences (F.counts files.new).absences }
    ensures ended { (at : ℕ) → IsErrOf result (DigestFault.SourceShort at) → Rose (F.counts files.old).ends (F.counts files.new).ends }
    ensures needed { (at : ℕ) → IsErrOf result (DigestFault.SourceShort at) → at < span.at + span.len }
    ensures not_before { (at : ℕ) → IsErrOf result (DigestFault.SourceShort at) → span.at ≤ at }
    ensures same_files { F.file files.new ≡ F.file files.old }
    ensures unasked { span.len ≡ 0 → files.new ≡ files.old }
    ensures exact { F.told → Digests (span_of (F.file files.old name.now) span.at span.len) result }
{
    let room = buf.len() as u64;
    let mut hasher = Sha256::new();
    let mut done = 0;
    while done < span.len {
        let piece = (span.len - done).min(room);
        let part = &mut buf[..piece as usize];
        add_piece(files, name, span.at + done, part, &mut hasher)?;
        done += piece;
    }
    Ok(hasher.finalize())
}

/// Adds as many bytes of the file as the buffer has to what is hashed.
fn add_piece<F: Files>(
    files: &mut F,
    name: &str,
    at: u64,
    buf: &mut [u8],
    hasher: &mut Sha256,
) -> Result<(), DigestFault>
    requires { at + length buf.old < 2 ^ 64 }
    ensures none_fell { NoneFell (F.counts files.old) (F.counts files.new) }
    ensures failed { IsErrOf result DigestFault.FileFault → Rose (F.counts files.old).faults (F.counts files.new).faults }
    ensures missing { IsErrOf result DigestFault.Missing → Rose (F.counts files.old).absences (F.counts files.new).absences }
    ensures ended { (at : ℕ) → IsErrOf result (DigestFault.SourceShort at) → Rose (F.counts files.old).ends (F.counts files.new).ends }
    ensures needed { (place : ℕ) → IsErrOf result (DigestFault.SourceShort place) → place < at + length buf.old }
    ensures not_before { (place : ℕ) → IsErrOf result (DigestFault.SourceShort place) → at ≤ place }
    ensures same_files { F.file files.new ≡ F.file files.old }
    ensures added { F.told → Adds (span_of (F.file files.old name.now) at (length buf.old)) hasher.old hasher.new result }
{
    match fill(files, name, at, buf) {
        Ok(()) => {
            hasher.update(&*buf);
            Ok(())
        }
        Err(FillFault::Missing) => Err(DigestFault::Missing),
        Err(FillFault::Short { at }) => Err(DigestFault::SourceShort { at }),
        Err(FillFault::Failed) => Err(DigestFault::FileFault),
    }
}
