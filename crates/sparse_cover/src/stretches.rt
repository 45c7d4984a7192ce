ghost use Rattle.std.specs.Prelude.{◌≡◌, ℕ, ◌+◌, ◌*◌, ◌/◌, ◌^◌, ◌<◌, ◌≤◌, true, false};
ghost use Rattle.span_cover.specs.Cover.{Meets};
ghost use Rattle.sparse_text.specs.Blocks.{block_span};
ghost use Rattle.sparse_cover.specs.Stretches.{AreBare, AreMet, IsStretch, blocks_span};

use base_fields::Span;
use span_cover::Cover;

/// Neighbouring blocks: all of them with a covered offset, or none.
#[derive(Clone, Copy, Debug, PartialEq, Eq)]
pub struct Stretch {
    pub covered: bool,
    /// How many blocks.
    pub count: u32,
}

/// The offsets of a block.
fn block_span(number: u64, block: u32) -> Span
    requires { number * block + block ≤ 2 ^ 44 }
    ensures { result ≡ block_span block number }
{
    let block = u64::from(block);
    Span {
        at: number * block,
        len: block,
    }
}

/// The offsets of so many blocks.
fn blocks_span(first: u64, count: u32, block: u32) -> Span
    requires { first * block + count * block ≤ 2 ^ 44 }
    ensures { result ≡ blocks_span block first count }
{
    let block = u64::from(block);
    Span {
        at: first * block,
        len: u64::from(count) * block,
    }
}

/// Whether a block has a covered offset.
fn is_met(cover: &Cover, number: u64, block: u32) -> bool
    requires { number * block + block ≤ 2 ^ 44 }
    ensures yes { result ≡ true → Meets cover.now (block_span block number) }
    ensures no { result ≡ false → Meets cover.now (block_span block number) → ⊥ }
{
    cover.meets(block_span(number, block))
}

/// Whether one of so many blocks has a covered offset.
fn any_met(cover: &Cover, first: u64, count: u32, block: u32) -> bool
    requires { first * block + count * block ≤ 2 ^ 44 }
    ensures yes { result ≡ true → count ≡ 1 → Meets cover.now (block_span block first) }
    ensures no { result ≡ false → AreBare cover.now block first count }
{
    cover.meets(blocks_span(first, count, block))
}

/// How many blocks from the first one on have a covered offset each: not more than `most`. The first one has one.
fn covered_blocks(cover: &Cover, first: u64, most: u32, block: u32) -> u32
    requires some { 0 < most }
    requires few { first + most ≤ 2 ^ 31 }
    requires within { first * block + most * block ≤ 2 ^ 44 }
    requires met { Meets cover.now (block_span block first) }
    ensures some { 0 < result }
    ensures within { result ≤ most }
    ensures met { AreMet cover.now block first result }
{
    for count in 1..most {
        if !is_met(cover, first + u64::from(count), block) {
            return count;
        }
    }
    most
}

/// How many blocks from the first one on have no covered offset: not more than `rest`, and not always all of them. The
/// first one has none.
fn bare_blocks(cover: &Cover, first: u64, rest: u32, block: u32) -> u32
    requires some { 0 < rest }
    requires within { first * block + rest * block ≤ 2 ^ 44 }
    requires bare { Meets cover.now (block_span block first) → ⊥ }
    ensures some { 0 < result }
    ensures within { result ≤ rest }
    ensures bare { AreBare cover.now block first result }
{
    let mut count = rest;
    while any_met(cover, first, count, block) {
        count /= 2;
    }
    count
}

/// A stretch of blocks from a first one on: not more than `rest`, and not more than `room` where they have covered
/// offsets. Takes no memory.
pub fn stretch_from(cover: &Cover, first: u64, rest: u32, room: u32, block: u32) -> Stretch
    requires some { (0 < rest) × (0 < room) }
    requires few { first + rest ≤ 2 ^ 31 }
    requires within { first * block + rest * block ≤ 2 ^ 44 }
    ensures some { 0 < result.count }
    ensures within { result.count ≤ rest }
    ensures room { result.covered ≡ true → result.count ≤ room }
    ensures exact { IsStretch cover.now block first result.count result.covered }
{
    if is_met(cover, first, block) {
        Stretch {
            covered: true,
            count: covered_blocks(cover, first, rest.min(room), block),
        }
    } else {
        Stretch {
            covered: false,
            count: bare_blocks(cover, first, rest, block),
        }
    }
}
