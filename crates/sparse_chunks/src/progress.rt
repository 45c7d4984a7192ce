ghost use Rattle.std.specs.Prelude.{◌≡◌, ℕ, ◌+◌, ◌-◌, ◌*◌, ◌/◌, ◌^◌, ◌<◌, ◌≤◌, ◌++◌, IfSome, IsErrOf, OnOk, Some, None, length, take};
ghost use Rattle.std.specs.Prelude.{List as list_of};
ghost use Rattle.base_fields.specs.declared.spans.Span.{Span as span_of};
ghost use Rattle.base_fields.specs.Fields.{written};
ghost use Rattle.outside.specs.Counts.{NoneFell, Rose};
ghost use Rattle.outside.specs.Files.{IsThere, OthersStay, bytes_of};
ghost use Rattle.sparse_text.specs.Text.{most_raw, tag_text};
ghost use Rattle.sparse_text.specs.declared.runs.Content.TheVariants.{Raw};
ghost use Rattle.sparse_chunks.specs.Progress.{AreAlike, HasBytes, IsLastPlaced, IsPlaced, IsProgress, IsWritten, Takes, data_with, done_after, end_after, more_with, placed_with, size_of};

use crate::contents::is_same;
use crate::heads::{HEADER_LEN, TAG_LEN, data_len, tag_bytes};
use base_fields::put_u32;
use outside::{Files, WriteErr};
use sparse_text::{Content, Run};

/// A chunk of a file, and the offset of its header.
#[derive(Clone, Copy, Debug, PartialEq, Eq)]
pub struct Placed {
    pub run: Run,
    pub at: u64,
}

/// The chunks of a file so far: how many, and the last one.
#[derive(Clone, Copy, Debug, PartialEq, Eq)]
pub struct Progress {
    pub chunks: u32,
    pub last: Option<Placed>,
}

impl Progress {
    /// No chunk behind a file's header.
    pub const NONE: Progress = Progress {
        chunks: 0,
        last: None,
    };

    /// How many blocks are written.
    pub fn done(&self) -> u64
        requires { done_after self.now.last ≤ 2 ^ 31 }
        ensures { result ≡ done_after self.now.last }
    {
        match self.last {
            None => 0,
            Some(last) => last.run.first + u64::from(last.run.count),
        }
    }
}

/// The length of a file that ends in a chunk, in blocks of `block` bytes.
fn end_after(last: Option<Placed>, block: u32) -> u64
    requires { IsLastPlaced block last }
    ensures { result ≡ end_after block last }
{
    match last {
        None => HEADER_LEN as u64,
        Some(last) => last.at + TAG_LEN as u64 + data_len(last.run.content, block, last.run.count),
    }
}

/// How many blocks the last chunk has with those of a run behind it that it takes; None where it takes none.
fn taken(last: Option<Placed>, run: Run, block: u32) -> Option<u32>
    requires block { 0 < block }
    requires some { 0 < run.count }
    requires last { IsLastPlaced block last }
    requires first { run.first ≡ done_after last }
    requires few { run.first + run.count ≤ 2 ^ 31 }
    ensures { Takes block last run result }
{
    let last = last?.run;
    if !is_same(last.content, run.content) {
        return None;
    }
    let whole = last.count + run.count;
    let count = if is_same(run.content, Content::Raw) {
        whole.min((1 << 30) / block)
    } else {
        whole
    };
    if count == last.count {
        return None;
    }
    Some(count)
}

/// Puts bytes behind the end of a file.
#[tactic(auto, using(crate::proofs::Writes::put_behind))]
fn append<F: Files>(files: &mut F, to: &str, end: u64, bytes: &[u8]) -> Result<(), WriteErr>
    requires there { F.told → IsThere (F.file files.old) to.now (end ≡ length (bytes_of (F.file files.old) to.now)) }
    ensures none_fell { NoneFell (F.counts files.old) (F.counts files.new) }
    ensures failed { IsErrOf result WriteErr.Failed → Rose (F.counts files.old).faults (F.counts files.new).faults }
    ensures others { OthersStay to.now (F.file files.old) (F.file files.new) }
    ensures wrote { F.told → OnOk result (F.file files.new to.now ≡ Some (bytes_of (F.file files.old) to.now ++ bytes.now)) }
{
    files.write_at(to, end, bytes)?;
    Ok(())
}

/// Puts a chunk behind the end of a file: its header, and its data.
fn append_chunk<F: Files>(
    files: &mut F,
    to: &str,
    end: u64,
    block: u32,
    run: Run,
    data: &[u8],
) -> Result<(), WriteErr>
    requires total { size_of block run < 2 ^ 32 }
    requires end { end < 2 ^ 63 }
    requires there { F.told → IsThere (F.file files.old) to.now (end ≡ length (bytes_of (F.file files.old) to.now)) }
    ensures none_fell { NoneFell (F.counts files.old) (F.counts files.new) }
    ensures failed { IsErrOf result WriteErr.Failed → Rose (F.counts files.old).faults (F.counts files.new).faults }
    ensures others { OthersStay to.now (F.file files.old) (F.file files.new) }
    ensures wrote { F.told → OnOk result
        (F.file files.new to.now ≡ Some (bytes_of (F.file files.old) to.now ++ tag_text block run.content run.count ++ data.now)) }
{
    append(files, to, end, &tag_bytes(block, run.content, run.count))?;
    append(files, to, end + TAG_LEN as u64, data)?;
    Ok(())
}

/// Puts the chunk of a run behind the end of a file. `bytes` are those of its blocks, where it is raw.
fn put_new<F: Files>(
    files: &mut F,
    to: &str,
    end: u64,
    block: u32,
    run: Run,
    bytes: &[u8],
) -> Result<(), WriteErr>
    requires total { size_of block run < 2 ^ 32 }
    requires end { end < 2 ^ 63 }
    requires bytes { run.content ≡ Raw → run.count * block ≤ length bytes.now }
    requires there { F.told → IsThere (F.file files.old) to.now (end ≡ length (bytes_of (F.file files.old) to.now)) }
    ensures none_fell { NoneFell (F.counts files.old) (F.counts files.new) }
    ensures failed { IsErrOf result WriteErr.Failed → Rose (F.counts files.old).faults (F.counts files.new).faults }
    ensures others { OthersStay to.now (F.file files.old) (F.file files.new) }
    ensures wrote { F.told → OnOk result
        (F.file files.new to.now ≡ Some (bytes_of (F.file files.old) to.now ++ tag_text block run.content run.count ++ data_with run.content (take (run.count * block) bytes.now))) }
{
    match run.content {
        Content::Skip => append_chunk(files, to, end, block, run, &[])?,
        Content::Fill { word } => {
            let mut data = [0; 4];
            put_u32(&mut data, 0, word);
            append_chunk(files, to, end, block, run, &data)?
        }
        Content::Raw => {
            let len = run.count as usize * block as usize;
            append_chunk(files, to, end, block, run, &bytes[..len])?
        }
    }
    Ok(())
}

/// Puts bytes of blocks behind the end of a file, where they are raw.
#[tactic(auto, using(crate::proofs::Writes::nothing_more))]
fn append_blocks<F: Files>(
    files: &mut F,
    to: &str,
    end: u64,
    content: Content,
    len: usize,
    bytes: &[u8],
) -> Result<(), WriteErr>
    requires bytes { content ≡ Raw → len ≤ length bytes.now }
    requires there { F.told → IsThere (F.file files.old) to.now (end ≡ length (bytes_of (F.file files.old) to.now)) }
    ensures none_fell { NoneFell (F.counts files.old) (F.counts files.new) }
    ensures failed { IsErrOf result WriteErr.Failed → Rose (F.counts files.old).faults (F.counts files.new).faults }
    ensures others { OthersStay to.now (F.file files.old) (F.file files.new) }
    ensures wrote { F.told → OnOk result
        (F.file files.new to.now ≡ Some (bytes_of (F.file files.old) to.now ++ more_with content (take len bytes.now))) }
{
    match content {
        Content::Raw => append(files, to, end, &bytes[..len])?,
        Content::Skip | Content::Fill { .. } => {}
    }
    Ok(())
}

/// Makes the last chunk of a file longer. `bytes` are those of the `more` blocks that it takes, where it is raw; `run`
/// has them, and `at` is the offset of its header.
fn put_more<F: Files>(
    files: &mut F,
    to: &str,
    end: u64,
    block: u32,
    placed: &Placed,
    more: u32,
    bytes: &[u8],
) -> Result<(), WriteErr>
    requires total { size_of block placed.now.run < 2 ^ 32 }
    requires end { end < 2 ^ 63 }
    requires at { placed.now.at + 12 ≤ end }
    requires bytes { placed.now.run.content ≡ Raw → more * block ≤ length bytes.now }
    requires there { F.told → IsThere (F.file files.old) to.now (end ≡ length (bytes_of (F.file files.old) to.now)) }
    ensures none_fell { NoneFell (F.counts files.old) (F.counts files.new) }
    ensures failed { IsErrOf result WriteErr.Failed → Rose (F.counts files.old).faults (F.counts files.new).faults }
    ensures others { OthersStay to.now (F.file files.old) (F.file files.new) }
    ensures wrote { F.told → OnOk result
        (F.file files.new to.now ≡ Some (written (bytes_of (F.file files.old) to.now ++ more_with placed.now.run.content (take (more * block) bytes.now)) placed.now.at (tag_text block placed.now.run.content placed.now.run.count))) }
{
    append_blocks(
        files,
        to,
        end,
        placed.run.content,
        more as usize * block as usize,
        bytes,
    )?;
    files.write_at(
        to,
        placed.at,
        &tag_bytes(block, placed.run.content, placed.run.count),
    )?;
    Ok(())
}

/// Writes blocks of a run behind those before: all of them, or as many as the last chunk still takes. `bytes` are those
/// of the run's blocks, where it is raw.
pub fn put_run<F: Files>(
    files: &mut F,
    to: &str,
    block: u32,
    progress: &mut Progress,
    run: Run,
    bytes: &[u8],
) -> Result<(), WriteErr>
    requires block { (4096 ≤ block) × (block ≤ 2 ^ 20) }
    requires progress { IsProgress block progress.old }
    requires first { run.first ≡ done_after progress.old.last }
    requires some { 0 < run.count }
    requires few { run.first + run.count ≤ 2 ^ 31 }
    requires short { run.content ≡ Raw → run.count ≤ most_raw block }
    requires bytes { run.content ≡ Raw → run.count * block ≤ length bytes.now }
    requires there { F.told → IsThere (F.file files.old) to.now (end_after block progress.old.last ≡ length (bytes_of (F.file files.old) to.now)) }
    ensures progress { IsProgress block progress.new }
    ensures more { OnOk result (run.first < done_after progress.new.last) }
    ensures within { done_after progress.new.last ≤ run.first + run.count }
    ensures none_fell { NoneFell (F.counts files.old) (F.counts files.new) }
    ensures failed { IsErrOf result WriteErr.Failed → Rose (F.counts files.old).faults (F.counts files.new).faults }
    ensures others { OthersStay to.now (F.file files.old) (F.file files.new) }
    ensures there { F.told → OnOk result (IsThere (F.file files.new) to.now (end_after block progress.new.last ≡ length (bytes_of (F.file files.new) to.now))) }
    ensures written { F.told → OnOk result ((image : list_of ℕ) (cover : list_of span_of) →
        AreAlike image cover block run → HasBytes image block run bytes.now →
        IsWritten image cover block progress.old (bytes_of (F.file files.old) to.now) → IsWritten image cover block progress.new (bytes_of (F.file files.new) to.now)) }
{
    let end = end_after(progress.last, block);
    match taken(progress.last, run, block) {
        None => {
            put_new(files, to, end, block, run, bytes)?;
            progress.chunks += 1;
            progress.last = Some(Placed { run, at: end });
        }
        Some(count) => {
            let Some(last) = progress.last else {
                unreachable!()
            };
            let longer = Placed {
                run: Run { count, ..last.run },
                at: last.at,
            };
            put_more(
                files,
                to,
                end,
                block,
                &longer,
                count - last.run.count,
                bytes,
            )?;
            progress.last = Some(longer);
        }
    }
    Ok(())
}
