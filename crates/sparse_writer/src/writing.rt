ghost use Rattle.std.specs.Prelude.{◌≡◌, ◌≢◌, ℕ, ◌+◌, ◌*◌, ◌^◌, ◌<◌, ◌≤◌, IfErr, OnOk, IfOk, Some, length};
ghost use Rattle.std.specs.Int.{div_ceil};
ghost use Rattle.base_fields.specs.Numbers.{IsPowerBetween};
ghost use Rattle.base_fields.specs.Fields.{written};
ghost use Rattle.outside.specs.Counts.{NoneFell};
ghost use Rattle.outside.specs.Files.{IsThere, OthersStay, bytes_of};
ghost use Rattle.region_pool.specs.Buffers.{free_of};
ghost use Rattle.region_pool.specs.Uses.{IsGivenBack};
ghost use Rattle.sparse_chunks.specs.Progress.{IsProgress, done_after, end_after};
ghost use Rattle.sparse_text.specs.Text.{header_text};
ghost use Rattle.sparse_windows.specs.Windows.{HasCause};
ghost use Rattle.sparse_writer.specs.Answers.{Ends, IsLookedFor, IsOfWriting, Writes};

use crate::steps::put_stretch;
use outside::{ComposeFault, FileErr, Files, WriteErr};
use region_pool::Pool;
use span_cover::Cover;
use sparse_chunks::{HEADER_LEN, Progress, header_bytes};

/// Writes the sparse file of an image: the first `size` bytes of the file `from`, of which those of the cover count, in
/// blocks of `block` bytes. A block without a covered offset isn't read, and may be missing in the file. Each byte is
/// read once at most, through one leased buffer, which is given back whatever is answered. Takes no memory. After a
/// refusal `to` may hold any bytes.
pub fn write_sparse<F: Files>(
    files: &mut F,
    from: &str,
    size: u64,
    cover: &Cover,
    block: u32,
    to: &str,
    pool: &mut Pool,
) -> Result<(), ComposeFault>
    requires apart { from.now ≢ to.now }
    requires size { size ≤ 2 ^ 43 }
    requires block { IsPowerBetween 4096 1048576 block }
    requires free { 0 < free_of pool.old }
    requires room { block ≤ pool.old.size }
    ensures none_fell { NoneFell (F.counts files.old) (F.counts files.new) }
    ensures cause { IfErr result (HasCause (F.counts files.old) (F.counts files.new)) }
    ensures others { OthersStay to.now (F.file files.old) (F.file files.new) }
    ensures writes { F.told → Writes cover.now block size from.now to.now (F.file files.old) (F.file files.new) result }
    ensures given_back { IsGivenBack pool.old pool.new }
{
    let Some(lease) = pool.lease() else {
        unreachable!()
    };
    let answer = write_through(files, from, size, cover, block, to, pool.bytes_mut(&lease));
    pool.give(lease);
    answer
}

/// The same through a buffer.
fn write_through<F: Files>(
    files: &mut F,
    from: &str,
    size: u64,
    cover: &Cover,
    block: u32,
    to: &str,
    buf: &mut [u8],
) -> Result<(), ComposeFault>
    requires apart { from.now ≢ to.now }
    requires size { size ≤ 2 ^ 43 }
    requires block { (4096 ≤ block) × (block ≤ 2 ^ 20) }
    requires room { (block ≤ length buf.old) × (length buf.old ≤ 2 ^ 22) }
    ensures none_fell { NoneFell (F.counts files.old) (F.counts files.new) }
    ensures cause { IfErr result (HasCause (F.counts files.old) (F.counts files.new)) }
    ensures others { OthersStay to.now (F.file files.old) (F.file files.new) }
    ensures writes { F.told → Writes cover.now block size from.now to.now (F.file files.old) (F.file files.new) result }
{
    look_for(files, from)?;
    make(files, to)?;
    let mut progress = Progress::NONE;
    put_blocks(files, from, size, cover, block, to, &mut progress, buf)?;
    put_header(files, to, size, block, progress.chunks)?;
    Ok(())
}

/// Sees that the source is there.
fn look_for<F: Files>(files: &mut F, from: &str) -> Result<(), ComposeFault>
    ensures none_fell { NoneFell (F.counts files.old) (F.counts files.new) }
    ensures cause { IfErr result (HasCause (F.counts files.old) (F.counts files.new)) }
    ensures same_files { F.file files.new ≡ F.file files.old }
    ensures found { F.told → IsLookedFor (F.file files.old from.now) result }
{
    match files.length(from) {
        Ok(_) => Ok(()),
        Err(FileErr::Missing) => Err(ComposeFault::Missing { part: 0 }),
        Err(FileErr::Failed) => Err(ComposeFault::FileFault),
    }
}

/// Makes the file with room for its header.
fn make<F: Files>(files: &mut F, to: &str) -> Result<(), ComposeFault>
    ensures none_fell { NoneFell (F.counts files.old) (F.counts files.new) }
    ensures cause { IfErr result (HasCause (F.counts files.old) (F.counts files.new)) }
    ensures refusal { IfErr result IsOfWriting }
    ensures others { OthersStay to.now (F.file files.old) (F.file files.new) }
    ensures there { F.told → OnOk result (IsThere (F.file files.new) to.now (28 ≡ length (bytes_of (F.file files.new) to.now))) }
{
    match files.create(to, HEADER_LEN as u64) {
        Ok(()) => Ok(()),
        Err(WriteErr::Failed) => Err(ComposeFault::FileFault),
        Err(WriteErr::NoMemory) => Err(ComposeFault::NoMemory),
    }
}

/// Writes the blocks that are left.
fn put_blocks<F: Files>(
    files: &mut F,
    from: &str,
    size: u64,
    cover: &Cover,
    block: u32,
    to: &str,
    progress: &mut Progress,
    buf: &mut [u8],
) -> Result<(), ComposeFault>
    requires apart { from.now ≢ to.now }
    requires size { size ≤ 2 ^ 43 }
    requires block { (4096 ≤ block) × (block ≤ 2 ^ 20) }
    requires progress { IsProgress block progress.old }
    requires before { done_after progress.old.last ≤ div_ceil size block }
    requires room { (block ≤ length buf.old) × (length buf.old ≤ 2 ^ 22) }
    requires there { F.told → IsThere (F.file files.old) to.now (end_after block progress.old.last ≡ length (bytes_of (F.file files.old) to.now)) }
    ensures progress { IsProgress block progress.new }
    ensures done { OnOk result (done_after progress.new.last ≡ div_ceil size block) }
    ensures none_fell { NoneFell (F.counts files.old) (F.counts files.new) }
    ensures cause { IfErr result (HasCause (F.counts files.old) (F.counts files.new)) }
    ensures others { OthersStay to.now (F.file files.old) (F.file files.new) }
    ensures there { F.told → OnOk result (IsThere (F.file files.new) to.now (end_after block progress.new.last ≡ length (bytes_of (F.file files.new) to.now))) }
    ensures goes { F.told → Ends cover.now block size (F.file files.old from.now) progress.old (bytes_of (F.file files.old) to.now) progress.new (bytes_of (F.file files.new) to.now) result }
{
    let blocks = size.div_ceil(u64::from(block));
    while progress.done() < blocks {
        match put_stretch(files, from, size, cover, block, to, progress, buf) {
            Ok(()) => {}
            Err(fault) => return Err(fault),
        }
    }
    Ok(())
}

/// Writes the header over the room for it.
fn put_header<F: Files>(
    files: &mut F,
    to: &str,
    size: u64,
    block: u32,
    chunks: u32,
) -> Result<(), ComposeFault>
    requires size { size ≤ 2 ^ 43 }
    requires block { (4096 ≤ block) × (block ≤ 2 ^ 20) }
    requires there { F.told → IsThere (F.file files.old) to.now (28 ≤ length (bytes_of (F.file files.old) to.now)) }
    ensures none_fell { NoneFell (F.counts files.old) (F.counts files.new) }
    ensures cause { IfErr result (HasCause (F.counts files.old) (F.counts files.new)) }
    ensures refusal { IfErr result IsOfWriting }
    ensures others { OthersStay to.now (F.file files.old) (F.file files.new) }
    ensures wrote { F.told → OnOk result
        (F.file files.new to.now ≡ Some (written (bytes_of (F.file files.old) to.now) 0 (header_text block (div_ceil size block) chunks))) }
{
    let blocks = size.div_ceil(u64::from(block)) as u32;
    match files.write_at(to, 0, &header_bytes(block, blocks, chunks)) {
        Ok(()) => Ok(()),
        Err(WriteErr::Failed) => Err(ComposeFault::FileFault),
        Err(WriteErr::NoMemory) => Err(ComposeFault::NoMemory),
    }
}
