//! Parts of a sparse file: its header, and one chunk.
ghost use Rattle.std.specs.Prelude.{◌≡◌, ℕ, ◌+◌, ◌^◌, ◌<◌, ◌≤◌, IfErr, IfOk, IsTrue, length, true};
ghost use Rattle.outside.specs.Counts.{NoneFell};
ghost use Rattle.outside.specs.Files.{IsThere, bytes_of};
ghost use Rattle.sparse_reader.specs.Answers.{Answers, HasCause, HasForm, IsFaultAt, HasLength, IsStep, Reads, most_bytes};
ghost use Rattle.sparse_reader.specs.Chunks.{IsCursor, behind, chunk_at, data_len, may_have, word_at};
ghost use Rattle.sparse_reader.specs.Header.{header_of, is_block, part_of};

use crate::chunk::{TAG_LEN, Tag, data_len, tag_in};
use crate::header::{HEADER_LEN, Header, header_in};
use crate::{Chunk, ChunkKind, Cursor, SparseFault};
use base_fields::get_u32;
use outside::{FileErr, Files, FillFault, fill};

/// How many bytes the file of that name has.
pub fn length_of<F: Files>(files: &mut F, from: &str) -> Result<u64, SparseFault>
    ensures none_fell { NoneFell (F.counts files.old) (F.counts files.new) }
    ensures cause { IfErr result (HasCause (F.counts files.old) (F.counts files.new)) }
    ensures fault { (k : ℕ) → IfErr result (IsFaultAt k) }
    ensures same_files { F.file files.new ≡ F.file files.old }
    ensures there { F.told → HasLength (F.file files.old) from.now result }
{
    match files.length(from) {
        Ok(len) => Ok(len),
        Err(FileErr::Missing) => Err(SparseFault::Missing),
        Err(FileErr::Failed) => Err(SparseFault::FileFault),
    }
}

/// Fills the buffer with the bytes from `at` on of a file that has `len` bytes.
fn read_part<F: Files>(
    files: &mut F,
    from: &str,
    len: u64,
    at: u64,
    buf: &mut [u8],
) -> Result<(), SparseFault>
    requires some { 0 < length buf.old }
    requires near { at + length buf.old ≤ most_bytes }
    requires there { F.told → IsThere (F.file files.old) from.now (len ≡ length (bytes_of (F.file files.old) from.now)) }
    ensures none_fell { NoneFell (F.counts files.old) (F.counts files.new) }
    ensures cause { IfErr result (HasCause (F.counts files.old) (F.counts files.new)) }
    ensures fault { (k : ℕ) → IfErr result (IsFaultAt k) }
    ensures same_files { F.file files.new ≡ F.file files.old }
    ensures there { F.told → Reads (part_of (bytes_of (F.file files.old) from.now) at (length buf.old)) buf.new result }
{
    if at + buf.len() as u64 > len {
        return Err(SparseFault::Short { at: len });
    }
    match fill(files, from, at, buf) {
        Ok(()) => Ok(()),
        Err(FillFault::Missing) => Err(SparseFault::Missing),
        Err(FillFault::Short { .. }) => Err(SparseFault::Short { at: len }),
        Err(FillFault::Failed) => Err(SparseFault::FileFault),
    }
}

/// The header of a file that has `len` bytes.
pub fn read_header<F: Files>(files: &mut F, from: &str, len: u64) -> Result<Header, SparseFault>
    requires there { F.told → IsThere (F.file files.old) from.now (len ≡ length (bytes_of (F.file files.old) from.now)) }
    ensures none_fell { NoneFell (F.counts files.old) (F.counts files.new) }
    ensures cause { IfErr result (HasCause (F.counts files.old) (F.counts files.new)) }
    ensures fault { (k : ℕ) → IfErr result (IsFaultAt k) }
    ensures same_files { F.file files.new ≡ F.file files.old }
    ensures block { IfOk result (λ header. IsTrue (is_block header.block)) }
    ensures answers { F.told → Answers (header_of (bytes_of (F.file files.old) from.now)) result }
{
    let mut head = [0; HEADER_LEN];
    read_part(files, from, len, 0, &mut head)?;
    header_in(&head)
}

/// The word of a chunk whose data stands at `at`, in blocks of `block` bytes. The data of another
/// than a fill chunk isn't read; that the file has it is seen by the length.
fn read_word<F: Files>(
    files: &mut F,
    from: &str,
    len: u64,
    block: u32,
    at: u64,
    tag: Tag,
) -> Result<u32, SparseFault>
    requires near { at + data_len tag.kind block tag.count ≤ most_bytes }
    requires total { 12 + data_len tag.kind block tag.count < 2 ^ 32 }
    requires blocks { may_have tag.kind tag.count ≡ true }
    requires there { F.told → IsThere (F.file files.old) from.now (len ≡ length (bytes_of (F.file files.old) from.now)) }
    ensures none_fell { NoneFell (F.counts files.old) (F.counts files.new) }
    ensures cause { IfErr result (HasCause (F.counts files.old) (F.counts files.new)) }
    ensures fault { (k : ℕ) → IfErr result (IsFaultAt k) }
    ensures same_files { F.file files.new ≡ F.file files.old }
    ensures form { IfOk result (HasForm block tag.kind tag.count) }
    ensures answers { F.told → Answers (word_at (bytes_of (F.file files.old) from.now) block at tag) result }
{
    if tag.kind == ChunkKind::Fill {
        let mut word = [0; 4];
        read_part(files, from, len, at, &mut word)?;
        return Ok(get_u32(&word, 0));
    }
    if at + data_len(tag.kind, block, tag.count) > len {
        return Err(SparseFault::Short { at: len });
    }
    Ok(0)
}

/// The chunk at a cursor, in blocks of `block` bytes, of a file that has `len` bytes. No other chunk
/// is looked at.
pub fn read_chunk<F: Files>(
    files: &mut F,
    from: &str,
    len: u64,
    block: u32,
    cursor: Cursor,
) -> Result<Chunk, SparseFault>
    requires number { cursor.chunk + 1 < 2 ^ 32 }
    requires bounded { IsCursor cursor }
    requires block { IsTrue (is_block block) }
    requires there { F.told → IsThere (F.file files.old) from.now (len ≡ length (bytes_of (F.file files.old) from.now)) }
    ensures none_fell { NoneFell (F.counts files.old) (F.counts files.new) }
    ensures cause { IfErr result (HasCause (F.counts files.old) (F.counts files.new)) }
    ensures fault { IfErr result (IsFaultAt cursor.chunk) }
    ensures same_files { F.file files.new ≡ F.file files.old }
    ensures data { IfOk result (λ chunk. 12 + data_len chunk.kind block chunk.count < 2 ^ 32) }
    ensures step { IfOk result (λ chunk. IsStep block cursor chunk (behind block cursor chunk)) }
    ensures answers { F.told → Answers (chunk_at (bytes_of (F.file files.old) from.now) block cursor) result }
{
    let mut head = [0; TAG_LEN];
    read_part(files, from, len, cursor.at, &mut head)?;
    let Some(tag) = tag_in(&head, block) else {
        return Err(SparseFault::BadChunk { k: cursor.chunk });
    };
    let at = cursor.at + TAG_LEN as u64;
    let word = read_word(files, from, len, block, at, tag)?;
    Ok(Chunk {
        kind: tag.kind,
        first: cursor.block,
        count: tag.count,
        at,
        word,
    })
}
