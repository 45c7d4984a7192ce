//! Ranges of blocks that needn't be those of a map.
ghost use Rattle.std.specs.Prelude.{◌+◌, ◌-◌, ◌^◌, ◌<◌, ◌≤◌, All, IsTrue, length, slice_index_or};
ghost use Rattle.block_map.specs.Maps.{AreRanges};
ghost use Rattle.block_map.specs.declared.maps.Range.{Range};

use anyhow::{Result, bail};
use block_map::{Range, blocks_in};
use scenario_words::Arguments;
use std::alloc::Global;

/// Ranges by their first and last blocks, as long as there are words.
pub fn read_ranges(alloc: Global, words: &mut Arguments) -> Result<Vec<Range>> {
    let mut ranges = Vec::new(alloc);
    for _ in 0..words.left() {
        if words.is_empty() {
            break;
        }
        ranges.push(Range {
            first: words.number("a block")?,
            last: words.number("a block")?,
            digest: None,
        })?;
    }
    Ok(ranges)
}

/// How many blocks are in them.
pub fn count(alloc: Global, ranges: &[Range]) -> Result<String> {
    if !are_ranges(ranges) {
        bail!("no ranges one behind the other");
    }
    let blocks = blocks_in(ranges);
    Ok(format!(in alloc; "{blocks} blocks")?)
}

/// Whether each has blocks, none of them the last that a number has, and stands behind the one before.
fn are_ranges(ranges: &[Range]) -> bool
    ensures ranges { IsTrue result → AreRanges ranges.now }
    ensures fits { IsTrue result → All (λ r. r.last < 2 ^ 64 - 1) ranges.now }
{
    for k in 0..ranges.len() {
        if !stands(ranges, k) {
            return false;
        }
    }
    true
}

fn stands(ranges: &[Range], k: usize) -> bool
    requires { k < length ranges.now }
    ensures filled { IsTrue result → (d : Range) → (slice_index_or ranges.now k d).first ≤ (slice_index_or ranges.now k d).last }
    ensures behind { IsTrue result → (d : Range) → 0 < k → (slice_index_or ranges.now (k - 1) d).last < (slice_index_or ranges.now k d).first }
    ensures fits { IsTrue result → (d : Range) → (slice_index_or ranges.now k d).last < 2 ^ 64 - 1 }
{
    if k > 0 && ranges[k - 1].last >= ranges[k].first {
        return false;
    }
    ranges[k].first <= ranges[k].last && ranges[k].last < u64::MAX
}
