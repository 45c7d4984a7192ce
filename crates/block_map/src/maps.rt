ghost use Rattle.std.specs.Prelude.{◌≡◌, ◌+◌, ◌-◌, ◌*◌, ◌^◌, ◌<◌, ◌≤◌, All, IfOk, length, map};
ghost use Rattle.base_fields.specs.Numbers.{IsPowerBetween};
ghost use Rattle.block_map.specs.Maps.{AreRanges, HasDigestSet, IsBareMapOf, IsMap, IsRangeBytes, block_count, blocks_in, max_ranges, range_span, run_of};

use base_fields::{List, NoMemory, Span};
use span_cover::Cover;
use std::alloc::Global;

/// How many ranges a map may have.
pub const MAX_RANGES: usize = 262_144;

/// Which blocks of an image hold data. A block has `block` bytes, the image's last one fewer where `size` isn't a
/// multiple of it.
///
/// The calls below give and keep what is asked of a map: its ranges ascend and don't meet, the last one ends
/// within the image, and there are at most 262,144; `block` is a power of two from 512 to 65,536, and `size` at
/// most 2^43.
#[derive(Debug, Drop)]
pub struct BlockMap {
    /// The image's size in bytes.
    pub size: u64,
    /// The size of a block in bytes.
    pub block: u32,
    pub ranges: List<Range>,
}

/// A run of blocks that hold data.
#[derive(Clone, Copy, Debug, PartialEq, Eq)]
pub struct Range {
    /// The number of its first block.
    pub first: u64,
    /// The number of its last block.
    pub last: u64,
    /// SHA-256 of its bytes, which end where the image does.
    pub digest: Option<[u8; 32]>,
}

impl BlockMap {
    /// The map of an image of `size` bytes in which the cover's offsets hold data: the maximal runs of the blocks
    /// that have one of these, with no digests.
    pub fn from_cover(
        alloc: Global,
        cover: &Cover,
        size: u64,
        block: u32,
    ) -> Result<BlockMap, NoMemory>
        requires size { size ≤ 2 ^ 43 }
        requires block { IsPowerBetween 512 65536 block }
        requires few { length cover.now ≤ max_ranges }
        ensures map { IfOk result (λ map. IsMap map) }
        ensures exact { IfOk result (λ map. IsBareMapOf cover.now size block map) }
    {
        let runs = cover.runs(alloc, size, block)?;
        let ranges = ranges_of(alloc, runs.as_slice())?;
        Ok(BlockMap {
            size,
            block,
            ranges,
        })
    }

    /// The bytes of range `k`, which end where the image does. Takes no memory.
    pub fn range_bytes(&self, k: usize) -> Span
        requires map { IsMap self.now }
        requires there { k < length self.now.ranges }
        ensures exact { IsRangeBytes self.now k result }
        ensures filled { 0 < result.len }
        ensures end { result.at + result.len ≤ self.now.size }
    {
        bytes_of(self, &self.ranges.as_slice()[k])
    }

    /// How many blocks the image has: its size in blocks, rounded up.
    pub fn block_count(&self) -> u64
        requires { 0 < self.now.block }
        ensures { result ≡ block_count self.now }
    {
        self.size.div_ceil(u64::from(self.block))
    }

    /// How many blocks are in the ranges.
    pub fn mapped_count(&self) -> u64
        requires { IsMap self.now }
        ensures { result ≡ blocks_in self.now.ranges }
    {
        blocks_in(self.ranges.as_slice())
    }

    /// Sets the digest of range `k`. Takes no memory.
    pub fn set_digest(&mut self, k: usize, digest: [u8; 32])
        requires { k < length self.old.ranges }
        ensures map { IsMap self.old → IsMap self.new }
        ensures set { HasDigestSet self.old k digest self.new }
    {
        let range = self.ranges.as_slice()[k];
        self.ranges.set(
            k,
            Range {
                digest: Some(digest),
                ..range
            },
        );
    }
}

/// The bytes of a range of a map, which end where the image does.
pub(crate) fn bytes_of(map: &BlockMap, range: &Range) -> Span
    requires map { IsMap map.now }
    requires ordered { range.now.first ≤ range.now.last }
    requires below { range.now.last * map.now.block < map.now.size }
    ensures exact { result ≡ range_span map.now range.now }
    ensures filled { 0 < result.len }
    ensures end { result.at + result.len ≤ map.now.size }
{
    let block = u64::from(map.block);
    let at = range.first * block;
    let end = (range.last + 1) * block;
    Span {
        at,
        len: map.size.min(end) - at,
    }
}

/// The ranges of runs of blocks, with no digests.
fn ranges_of(alloc: Global, runs: &[Span]) -> Result<List<Range>, NoMemory>
    requires filled { All (λ run. 0 < run.len) runs.now }
    requires bounded { All (λ run. run.at + run.len ≤ 2 ^ 43) runs.now }
    ensures runs { IfOk result (λ ranges. map run_of ranges ≡ runs.now) }
    ensures filled { IfOk result (λ ranges. All (λ r. r.first ≤ r.last) ranges) }
    ensures bare { IfOk result (λ ranges. All (λ r. r.digest ≡ None) ranges) }
{
    let mut ranges = List::new(alloc);
    for run in runs {
        ranges.push(Range {
            first: run.at,
            last: run.at + run.len - 1,
            digest: None,
        })?;
    }
    Ok(ranges)
}

/// How many blocks are in ranges that needn't be within an image.
pub fn blocks_in(ranges: &[Range]) -> u64
    requires ranges { AreRanges ranges.now }
    requires fits { All (λ r. r.last < 2 ^ 64 - 1) ranges.now }
    ensures { result ≡ blocks_in ranges.now }
{
    let mut count = 0;
    for range in ranges {
        count += range.last - range.first + 1;
    }
    count
}
