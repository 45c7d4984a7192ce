ghost use Rattle.std.specs.Prelude.{◌≡◌, ℕ, ◌+◌, ◌-◌, ◌*◌, ◌^◌, ◌<◌, ◌≤◌, IsErrOf, OnOk, length, take, drop};
ghost use Rattle.std.specs.Prelude.{List as list_of};
ghost use Rattle.base_fields.specs.declared.spans.Span.{Span as span_of};
ghost use Rattle.outside.specs.Counts.{NoneFell, Rose};
ghost use Rattle.outside.specs.Files.{IsThere, OthersStay, bytes_of};
ghost use Rattle.sparse_chunks.specs.Progress.{IsProgress, IsWritten, done_after, end_after};
ghost use Rattle.sparse_cover.specs.Stretches.{AreMet};
ghost use Rattle.sparse_text.specs.Blocks.{padded};
ghost use Rattle.sparse_text.specs.Text.{most_raw};

use outside::{Files, WriteErr};
use sparse_chunks::{Progress, first_run, put_run};
use sparse_text::Run;

/// Writes blocks that have covered offsets, `count` of them from `first` on, whose bytes the window holds.
pub fn put_window<F: Files>(
    files: &mut F,
    to: &str,
    block: u32,
    progress: &mut Progress,
    first: u64,
    count: u32,
    window: &[u8],
) -> Result<(), WriteErr>
    requires block { (4096 ≤ block) × (block ≤ 2 ^ 20) }
    requires progress { IsProgress block progress.old }
    requires begins { (first ≤ done_after progress.old.last) × (done_after progress.old.last ≤ first + count) }
    requires few { first + count ≤ 2 ^ 31 }
    requires short { count ≤ most_raw block }
    requires whole { length window.now ≡ count * block }
    requires there { F.told → IsThere (F.file files.old) to.now (end_after block progress.old.last ≡ length (bytes_of (F.file files.old) to.now)) }
    ensures progress { IsProgress block progress.new }
    ensures done { OnOk result (done_after progress.new.last ≡ first + count) }
    ensures none_fell { NoneFell (F.counts files.old) (F.counts files.new) }
    ensures failed { IsErrOf result WriteErr.Failed → Rose (F.counts files.old).faults (F.counts files.new).faults }
    ensures others { OthersStay to.now (F.file files.old) (F.file files.new) }
    ensures there { F.told → OnOk result (IsThere (F.file files.new) to.now (end_after block progress.new.last ≡ length (bytes_of (F.file files.new) to.now))) }
    ensures written { F.told → OnOk result ((image : list_of ℕ) (cover : list_of span_of) →
        AreMet cover block first count → window.now ≡ take (count * block) (drop (first * block) (padded image block)) →
        IsWritten image cover block progress.old (bytes_of (F.file files.old) to.now) → IsWritten image cover block progress.new (bytes_of (F.file files.new) to.now)) }
{
    while progress.done() < first + u64::from(count) {
        put_next(files, to, block, progress, first, count, window)?;
    }
    Ok(())
}

/// Writes the next blocks of the window that are alike, or as many of them as the last chunk still takes.
fn put_next<F: Files>(
    files: &mut F,
    to: &str,
    block: u32,
    progress: &mut Progress,
    first: u64,
    count: u32,
    window: &[u8],
) -> Result<(), WriteErr>
    requires block { (4096 ≤ block) × (block ≤ 2 ^ 20) }
    requires progress { IsProgress block progress.old }
    requires begins { (first ≤ done_after progress.old.last) × (done_after progress.old.last < first + count) }
    requires few { first + count ≤ 2 ^ 31 }
    requires short { count ≤ most_raw block }
    requires whole { length window.now ≡ count * block }
    requires there { F.told → IsThere (F.file files.old) to.now (end_after block progress.old.last ≡ length (bytes_of (F.file files.old) to.now)) }
    ensures progress { IsProgress block progress.new }
    ensures more { OnOk result (done_after progress.old.last < done_after progress.new.last) }
    ensures within { done_after progress.new.last ≤ first + count }
    ensures none_fell { NoneFell (F.counts files.old) (F.counts files.new) }
    ensures failed { IsErrOf result WriteErr.Failed → Rose (F.counts files.old).faults (F.counts files.new).faults }
    ensures others { OthersStay to.now (F.file files.old) (F.file files.new) }
    ensures there { F.told → OnOk result (IsThere (F.file files.new) to.now (end_after block progress.new.last ≡ length (bytes_of (F.file files.new) to.now))) }
    ensures written { F.told → OnOk result ((image : list_of ℕ) (cover : list_of span_of) →
        AreMet cover block first count → window.now ≡ take (count * block) (drop (first * block) (padded image block)) →
        IsWritten image cover block progress.old (bytes_of (F.file files.old) to.now) → IsWritten image cover block progress.new (bytes_of (F.file files.new) to.now)) }
{
    let done = progress.done();
    let skipped = (done - first) as u32;
    let rest = blocks_from(window, count, skipped, block);
    let (content, alike) = first_run(rest, count - skipped, block);
    let run = Run {
        first: done,
        count: alike,
        content,
    };
    put_run(files, to, block, progress, run, rest)?;
    Ok(())
}

/// The blocks of a window of so many that stand behind the first ones.
#[tactic(auto, using(crate::proofs::Parts::left_long))]
fn blocks_from(window: &[u8], count: u32, skipped: u32, block: u32) -> &[u8]
    requires whole { length window.now ≡ count * block }
    requires within { skipped ≤ count }
    ensures exact { result.now ≡ drop (skipped * block) window.now }
    ensures long { length result.now ≡ (count - skipped) * block }
{
    &window[skipped as usize * block as usize..]
}
