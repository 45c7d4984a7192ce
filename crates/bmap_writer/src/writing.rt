ghost use Rattle.std.specs.Prelude.{◌≡◌, ◌+◌, ◌≤◌, ◌++◌, IfOk, OnOk, length, replicate};
ghost use Rattle.hex.specs.Hex.{encode_lower};
ghost use Rattle.sha2.specs.Sha256.{sha256};
ghost use Rattle.base_fields.specs.Fields.{written};
ghost use Rattle.block_map.specs.Maps.{IsMap};
ghost use Rattle.bmap_writer.specs.Parts.{back_of, front_of};
ghost use Rattle.bmap_writer.specs.Written.{written_text};

use crate::parts::{put_back, put_closing, put_front, put_opening};
use base_fields::{Bytes, NoMemory, put_bytes};
use block_map::{BlockMap, Range};
use sha2::{Digest, Sha256};
use std::alloc::Global;

/// The most bytes of a text without its ranges, and of the line of a range.
const FRAME_ROOM: usize = 512;

const RANGE_ROOM: usize = 128;

/// The element of the sum.
const SUM: &str = "BmapFileChecksum";

/// The text of a block map, as bmap 2.0 spells it. Its memory is taken at the start.
pub fn write_bmap(alloc: Global, map: &BlockMap) -> Result<Bytes, NoMemory>
    requires { IsMap map.now }
    ensures written { IfOk result (λ bytes. bytes ≡ written_text map.now) }
{
    let ranges = map.ranges.as_slice();
    let room = FRAME_ROOM + RANGE_ROOM * ranges.len();
    let mut text = Vec::with_capacity(alloc, room)?;
    put_head(&mut text, map)?;
    let at = text.len();
    put_tail(&mut text, ranges)?;
    put_sum(&mut text, at);
    Ok(Bytes::from_vec(text))
}

/// Puts what stands in front of the sum.
fn put_head(text: &mut Vec<u8>, map: &BlockMap) -> Result<(), NoMemory>
    requires { IsMap map.now }
    ensures { OnOk result (text.new.items ≡ text.old.items ++ front_of map.now) }
{
    put_front(text, map)?;
    put_opening(text, SUM)?;
    Ok(())
}

/// Puts zeros for the sum, and what stands behind it.
fn put_tail(text: &mut Vec<u8>, ranges: &[Range]) -> Result<(), NoMemory>
    ensures { OnOk result (text.new.items ≡ text.old.items ++ (replicate 64 48 ++ back_of ranges.now)) }
{
    text.extend_from_slice(&[b'0'; 64])?;
    put_closing(text, SUM)?;
    put_back(text, ranges)?;
    Ok(())
}

/// Puts the sum of the text at its place.
fn put_sum(text: &mut [u8], at: usize)
    requires { at + 64 ≤ length text.old }
    ensures sum { text.new ≡ written text.old at (encode_lower (sha256 text.old)) }
    ensures digits { length (encode_lower (sha256 text.old)) ≡ 64 }
{
    let sum = Sha256::digest(&*text);
    let mut digits = [0; 64];
    match hex::encode_to_slice(sum.as_slice(), &mut digits) {
        Ok(()) => put_bytes(text, at, digits.as_slice()),
        Err(_) => unreachable!(),
    }
}
