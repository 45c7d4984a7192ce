//! Ranges that stand one behind another.
ghost use Rattle.std.specs.Prelude.{◌≡◌, ◌+◌, ◌-◌, ◌^◌, ◌<◌, ◌≤◌, length};
ghost use Rattle.bmap_grammar.specs.Stood.{block_behind, may_follow, next_of};
ghost use Rattle.bmap_reader.specs.Holds.{AreBelow};

use block_map::{MAX_RANGES, Range};

/// The least block at which a range behind these may begin.
pub(crate) fn next_of(ranges: &[Range]) -> u64
    requires { AreBelow ranges.now }
    ensures { result ≡ next_of ranges.now }
{
    match ranges.last() {
        Some(range) => range.last + 1,
        None => 0,
    }
}

/// Whether a range may stand behind these.
pub(crate) fn may_follow(ranges: &[Range], range: Range) -> bool
    requires { AreBelow ranges.now }
    ensures { result ≡ may_follow ranges.now range }
{
    next_of(ranges) <= range.first
        && range.first <= range.last
        && range.last < u64::MAX
        && ranges.len() < MAX_RANGES
}
