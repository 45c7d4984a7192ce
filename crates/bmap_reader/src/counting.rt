//! The counts and the sum of a text.
ghost use Rattle.std.specs.Prelude.{◌≡◌, ◌+◌, ◌<◌, ◌≤◌, IfOk, length};
ghost use Rattle.block_map.specs.Maps.{AreRanges, IsMap};
ghost use Rattle.bmap_grammar.specs.Document.{counted, enough_blocks, map_of, map_told, same_count, same_sum, sum_of};
ghost use Rattle.bmap_reader.specs.Holds.{AreBelow, IsStood, IsTold};

use crate::ranges::next_of;
use crate::standing::said_by;
use base_fields::List;
use block_map::{BlockMap, Range, blocks_in};
use bmap_grammar::{MapFault, Stood, Told};
use sha2::{Digest, Sha256};

fn same_count(want: u64, got: u64) -> Result<(), MapFault>
    ensures { result ≡ same_count want got }
{
    if want != got {
        return Err(MapFault::BadCounts { want, got });
    }
    Ok(())
}

fn enough_blocks(want: u64, got: u64) -> Result<(), MapFault>
    ensures { result ≡ enough_blocks want got }
{
    if got > want {
        return Err(MapFault::BadCounts { want, got });
    }
    Ok(())
}

/// Whether the counts are right.
fn counted(told: &Told, ranges: &[Range]) -> Result<(), MapFault>
    requires some { 0 < told.now.block }
    requires ranges { AreRanges ranges.now }
    requires below { AreBelow ranges.now }
    ensures { result ≡ counted told.now ranges.now }
{
    if let Err(fault) = same_count(told.blocks, told.size.div_ceil(u64::from(told.block))) {
        return Err(fault);
    }
    if let Err(fault) = same_count(told.mapped, blocks_in(ranges)) {
        return Err(fault);
    }
    enough_blocks(told.blocks, next_of(ranges))
}

/// SHA-256 of a text, with zeros for the 64 digits at this place. The text isn't copied.
#[tactic(auto, unfolding(bmap_grammar::specs::Document::sum_of))]
fn sum_of(text: &[u8], at: usize) -> [u8; 32]
    requires { at + 64 ≤ length text.now }
    ensures { result ≡ sum_of text.now at }
{
    let zeros = [b'0'; 64];
    let mut hasher = Sha256::new();
    hasher.update(text.split_at(at).0);
    hasher.update(zeros.as_slice());
    hasher.update(text.split_at(at + 64).1);
    hasher.finalize()
}

fn same_sum(want: [u8; 32], got: [u8; 32]) -> Result<(), MapFault>
    ensures { result ≡ same_sum want got }
{
    if want.as_slice() != got.as_slice() {
        return Err(MapFault::SumDiffers { want, got });
    }
    Ok(())
}

/// The map of these values and ranges, where the counts and the sum are right.
fn map_told(text: &[u8], told: Told, ranges: List<Range>) -> Result<BlockMap, MapFault>
    requires told { IsTold (length text.now) told }
    requires ranges { AreRanges ranges }
    requires below { AreBelow ranges }
    ensures { result ≡ map_told text.now ranges told }
{
    if let Err(fault) = counted(&told, ranges.as_slice()) {
        return Err(fault);
    }
    if let Err(fault) = same_sum(told.sum.digest, sum_of(text, told.sum.at as usize)) {
        return Err(fault);
    }
    Ok(BlockMap {
        size: told.size,
        block: told.block,
        ranges,
    })
}

/// The map of a text in which this has stood.
pub(crate) fn map_of(text: &[u8], stood: Stood) -> Result<BlockMap, MapFault>
    requires { IsStood (length text.now) stood }
    ensures exact { result ≡ map_of text.now stood }
    ensures holds { IfOk result (λ m. IsMap m) }
{
    let Some(told) = said_by(&stood) else {
        return Err(MapFault::BadMap {
            place: text.len() as u64,
        });
    };
    let Stood { ranges, .. } = stood;
    map_told(text, told, ranges)
}
