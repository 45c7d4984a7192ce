ghost use Rattle.std.specs.Prelude.{IfSome, Ok};
ghost use Rattle.block_map.specs.Maps.{IsMap};
ghost use Rattle.bmap_grammar.specs.Document.{Answers};
ghost use Rattle.bmap_laws.specs.Digests.{AreDigests, IsDigest};

use block_map::{BlockMap, Range};
use bmap_grammar::MapFault;
use bmap_reader::read_bmap;
use bmap_writer::write_bmap;
use std::alloc::Global;

/// The map that is read of the text that is written for a map: that map again, or want of memory.
pub fn read_back(alloc: Global, map: &BlockMap) -> Result<BlockMap, MapFault>
    requires map { IsMap map.now }
    ensures same { Answers (Ok map.now) result }
{
    have_digests(map.ranges.as_slice());
    let text = write_bmap(alloc, map)?;
    read_bmap(alloc, text.bytes())
}

/// The digests of ranges are 32 bytes each, as their type says.
fn have_digests(ranges: &[Range])
    ensures { AreDigests ranges.now }
{
    for range in ranges {
        has_digest(range);
    }
}

/// The digest of a range is, if it has one.
fn has_digest(range: &Range)
    ensures { IfSome range.now.digest IsDigest }
{
    match range.digest {
        Some(digest) => is_digest(digest),
        None => (),
    }
}

/// Each array of 32 bytes is a digest.
fn is_digest(digest: [u8; 32])
    ensures { IsDigest digest }
{}
