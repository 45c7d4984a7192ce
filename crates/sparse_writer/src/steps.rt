ghost use Rattle.std.specs.Prelude.{◌≡◌, ◌≢◌, ℕ, ◌+◌, ◌-◌, ◌*◌, ◌^◌, ◌<◌, ◌≤◌, IfErr, OnOk, length};
ghost use Rattle.std.specs.Int.{div_ceil};
ghost use Rattle.std.specs.Prelude.{List as list_of};
ghost use Rattle.base_fields.specs.declared.spans.Span.{Span as span_of};
ghost use Rattle.outside.specs.Counts.{NoneFell};
ghost use Rattle.outside.specs.Files.{IsThere, OthersStay, bytes_of};
ghost use Rattle.sparse_chunks.specs.Progress.{IsProgress, IsWritten, done_after, end_after};
ghost use Rattle.sparse_cover.specs.Stretches.{AreBare, AreMet};
ghost use Rattle.sparse_text.specs.Text.{most_raw};
ghost use Rattle.sparse_windows.specs.Windows.{HasCause};
ghost use Rattle.sparse_writer.specs.Answers.{GoesOn, IsOfWriting};

use outside::{ComposeFault, Files, WriteErr};
use span_cover::Cover;
use sparse_chunks::{Progress, put_run};
use sparse_cover::stretch_from;
use sparse_text::{Content, Run};
use sparse_windows::{put_window, read_window};

/// Writes `count` blocks that have no covered offset.
fn put_bare<F: Files>(
    files: &mut F,
    to: &str,
    block: u32,
    progress: &mut Progress,
    count: u32,
) -> Result<(), ComposeFault>
    requires block { (4096 ≤ block) × (block ≤ 2 ^ 20) }
    requires progress { IsProgress block progress.old }
    requires some { 0 < count }
    requires few { done_after progress.old.last + count ≤ 2 ^ 31 }
    requires there { F.told → IsThere (F.file files.old) to.now (end_after block progress.old.last ≡ length (bytes_of (F.file files.old) to.now)) }
    ensures progress { IsProgress block progress.new }
    ensures more { OnOk result (done_after progress.old.last < done_after progress.new.last) }
    ensures within { OnOk result (done_after progress.new.last ≤ done_after progress.old.last + count) }
    ensures none_fell { NoneFell (F.counts files.old) (F.counts files.new) }
    ensures cause { IfErr result (HasCause (F.counts files.old) (F.counts files.new)) }
    ensures refusal { IfErr result IsOfWriting }
    ensures others { OthersStay to.now (F.file files.old) (F.file files.new) }
    ensures there { F.told → OnOk result (IsThere (F.file files.new) to.now (end_after block progress.new.last ≡ length (bytes_of (F.file files.new) to.now))) }
    ensures written { F.told → OnOk result ((image : list_of ℕ) (cover : list_of span_of) → AreBare cover block (done_after progress.old.last) count →
        IsWritten image cover block progress.old (bytes_of (F.file files.old) to.now) → IsWritten image cover block progress.new (bytes_of (F.file files.new) to.now)) }
{
    let run = Run {
        first: progress.done(),
        count,
        content: Content::Skip,
    };
    match put_run(files, to, block, progress, run, &[]) {
        Ok(()) => Ok(()),
        Err(WriteErr::Failed) => Err(ComposeFault::FileFault),
        Err(WriteErr::NoMemory) => Err(ComposeFault::NoMemory),
    }
}

/// Reads and writes `count` blocks that have covered offsets.
fn put_covered<F: Files>(
    files: &mut F,
    from: &str,
    size: u64,
    block: u32,
    to: &str,
    progress: &mut Progress,
    count: u32,
    buf: &mut [u8],
) -> Result<(), ComposeFault>
    requires apart { from.now ≢ to.now }
    requires size { size ≤ 2 ^ 43 }
    requires block { (4096 ≤ block) × (block ≤ 2 ^ 20) }
    requires progress { IsProgress block progress.old }
    requires some { 0 < count }
    requires few { done_after progress.old.last + count ≤ 2 ^ 31 }
    requires inside { done_after progress.old.last + count ≤ div_ceil size block }
    requires short { count ≤ most_raw block }
    requires room { count * block ≤ length buf.old }
    requires there { F.told → IsThere (F.file files.old) to.now (end_after block progress.old.last ≡ length (bytes_of (F.file files.old) to.now)) }
    ensures progress { IsProgress block progress.new }
    ensures more { OnOk result (done_after progress.old.last < done_after progress.new.last) }
    ensures within { OnOk result (done_after progress.new.last ≤ done_after progress.old.last + count) }
    ensures none_fell { NoneFell (F.counts files.old) (F.counts files.new) }
    ensures cause { IfErr result (HasCause (F.counts files.old) (F.counts files.new)) }
    ensures others { OthersStay to.now (F.file files.old) (F.file files.new) }
    ensures there { F.told → OnOk result (IsThere (F.file files.new) to.now (end_after block progress.new.last ≡ length (bytes_of (F.file files.new) to.now))) }
    ensures goes { F.told → (cover : list_of span_of) → AreMet cover block (done_after progress.old.last) count →
        GoesOn cover block size (F.file files.old from.now) progress.old (bytes_of (F.file files.old) to.now) progress.new (bytes_of (F.file files.new) to.now) result }
{
    let first = progress.done();
    let window = &mut buf[..count as usize * block as usize];
    match read_window(files, from, size, first * u64::from(block), window) {
        Ok(()) => {}
        Err(fault) => return Err(fault),
    }
    match put_window(files, to, block, progress, first, count, window) {
        Ok(()) => Ok(()),
        Err(WriteErr::Failed) => Err(ComposeFault::FileFault),
        Err(WriteErr::NoMemory) => Err(ComposeFault::NoMemory),
    }
}

/// Writes the next stretch of blocks, or as much of it as the buffer holds.
pub fn put_stretch<F: Files>(
    files: &mut F,
    from: &str,
    size: u64,
    cover: &Cover,
    block: u32,
    to: &str,
    progress: &mut Progress,
    buf: &mut [u8],
) -> Result<(), ComposeFault>
    requires apart { from.now ≢ to.now }
    requires size { size ≤ 2 ^ 43 }
    requires block { (4096 ≤ block) × (block ≤ 2 ^ 20) }
    requires progress { IsProgress block progress.old }
    requires before { done_after progress.old.last < div_ceil size block }
    requires room { (block ≤ length buf.old) × (length buf.old ≤ 2 ^ 22) }
    requires there { F.told → IsThere (F.file files.old) to.now (end_after block progress.old.last ≡ length (bytes_of (F.file files.old) to.now)) }
    ensures progress { IsProgress block progress.new }
    ensures more { OnOk result (done_after progress.old.last < done_after progress.new.last) }
    ensures within { OnOk result (done_after progress.new.last ≤ div_ceil size block) }
    ensures none_fell { NoneFell (F.counts files.old) (F.counts files.new) }
    ensures cause { IfErr result (HasCause (F.counts files.old) (F.counts files.new)) }
    ensures others { OthersStay to.now (F.file files.old) (F.file files.new) }
    ensures there { F.told → OnOk result (IsThere (F.file files.new) to.now (end_after block progress.new.last ≡ length (bytes_of (F.file files.new) to.now))) }
    ensures goes { F.told →
        GoesOn cover.now block size (F.file files.old from.now) progress.old (bytes_of (F.file files.old) to.now) progress.new (bytes_of (F.file files.new) to.now) result }
{
    let first = progress.done();
    let rest = (size.div_ceil(u64::from(block)) - first) as u32;
    let room = buf.len() as u32 / block;
    let stretch = stretch_from(cover, first, rest, room, block);
    if stretch.covered {
        put_covered(files, from, size, block, to, progress, stretch.count, buf)
    } else {
        put_bare(files, to, block, progress, stretch.count)
    }
}
