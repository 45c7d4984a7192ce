//! What has stood in a text, item by item.
ghost use Rattle.std.specs.Prelude.{IsTrue, ◌≡◌, ◌+◌, ◌-◌, ◌^◌, ◌<◌, ◌≤◌, ◌&&◌, [], ◌∷◌, ◌++◌, not};
ghost use Rattle.base_fields.specs.Results.{when};
ghost use Rattle.bmap_grammar.specs.Document.{Answers, Refuses};
ghost use Rattle.bmap_grammar.specs.Stood.{blank_behind, is_behind, is_first, is_front, is_inside, is_map, may_block, may_end, may_follow};
ghost use Rattle.bmap_grammar.specs.Stood.{may_size, may_type, nothing, number_stands, range_stands, said_by, stands, sum_stands, told_of};
ghost use Rattle.bmap_lexer.specs.Within.{HasRoom};
ghost use Rattle.bmap_reader.specs.Holds.{AreBelow};

use crate::ranges::may_follow;
use base_fields::List;
use block_map::Range;
use bmap_grammar::{Field, Item, MapFault, Piece, Stage, Stood, Sum, Told};
use std::alloc::Global;

/// The greatest size of an image, in bytes.
const MOST_SIZE: u64 = 1 << 43;

/// Nothing has stood. Takes no memory.
pub(crate) fn nothing(alloc: Global) -> Stood
    ensures { result ≡ nothing }
{
    Stood {
        stage: Stage::Nothing,
        size: None,
        block: None,
        blocks: None,
        mapped: None,
        typed: false,
        sum: None,
        begun: false,
        ranges: List::new(alloc),
    }
}

fn is_first(stage: Stage) -> bool
    ensures { result ≡ is_first stage }
{
    matches!(stage, Stage::Nothing)
}

fn is_front(stage: Stage) -> bool
    ensures { result ≡ is_front stage }
{
    matches!(stage, Stage::Nothing | Stage::Front)
}

fn is_inside(stage: Stage) -> bool
    ensures { result ≡ is_inside stage }
{
    matches!(stage, Stage::Inside)
}

fn is_map(stage: Stage) -> bool
    ensures { result ≡ is_map stage }
{
    matches!(stage, Stage::Map)
}

fn is_behind(stage: Stage) -> bool
    ensures { result ≡ is_behind stage }
{
    matches!(stage, Stage::Behind)
}

fn blank_behind(stage: Stage) -> Stage
    ensures { result ≡ blank_behind stage }
{
    match stage {
        Stage::Nothing => Stage::Front,
        Stage::Front => Stage::Front,
        Stage::Inside => Stage::Inside,
        Stage::Map => Stage::Map,
        Stage::Behind => Stage::Behind,
    }
}

/// The stage, where it is right here.
fn entered(mut stood: Stood, at: u64, right: bool, stage: Stage) -> Result<Stood, MapFault>
    ensures { Answers (when right (record stood { stage = stage }) (MapFault.BadMap at)) result }
{
    if !right {
        return Err(MapFault::BadMap { place: at });
    }
    stood.stage = stage;
    Ok(stood)
}

/// Whether an element may stand here that has stood already or not.
fn is_free(stage: Stage, taken: bool) -> bool
    ensures { result ≡ (is_inside stage && not taken) }
{
    is_inside(stage) && !taken
}

fn may_size(stood: &Stood, n: u64) -> bool
    ensures { result ≡ may_size stood.now n }
{
    is_inside(stood.stage) && !stood.size.is_some() && n <= MOST_SIZE
}

fn size(mut stood: Stood, at: u64, n: u64) -> Result<Stood, MapFault>
    ensures { Answers (number_stands at stood Field.ImageSize n) result }
{
    if !may_size(&stood, n) {
        return Err(MapFault::BadMap { place: at });
    }
    stood.size = Some(n);
    Ok(stood)
}

fn may_block(stood: &Stood, n: u64) -> bool
    ensures test { result ≡ may_block stood.now n }
    ensures small { IsTrue result → n ≤ 65536 }
{
    is_inside(stood.stage)
        && !stood.block.is_some()
        && n.is_power_of_two()
        && 512 <= n
        && n <= 65_536
}

fn block(mut stood: Stood, at: u64, n: u64) -> Result<Stood, MapFault>
    ensures { Answers (number_stands at stood Field.BlockSize n) result }
{
    if !may_block(&stood, n) {
        return Err(MapFault::BadMap { place: at });
    }
    stood.block = Some(n as u32);
    Ok(stood)
}

fn blocks(mut stood: Stood, at: u64, n: u64) -> Result<Stood, MapFault>
    ensures { Answers (number_stands at stood Field.BlocksCount n) result }
{
    if !is_free(stood.stage, stood.blocks.is_some()) {
        return Err(MapFault::BadMap { place: at });
    }
    stood.blocks = Some(n);
    Ok(stood)
}

fn mapped(mut stood: Stood, at: u64, n: u64) -> Result<Stood, MapFault>
    ensures { Answers (number_stands at stood Field.MappedBlocksCount n) result }
{
    if !is_free(stood.stage, stood.mapped.is_some()) {
        return Err(MapFault::BadMap { place: at });
    }
    stood.mapped = Some(n);
    Ok(stood)
}

/// An element whose value is a number.
fn number(stood: Stood, at: u64, field: Field, n: u64) -> Result<Stood, MapFault>
    ensures { Answers (number_stands at stood field n) result }
{
    match field {
        Field::ImageSize => size(stood, at, n),
        Field::BlockSize => block(stood, at, n),
        Field::BlocksCount => blocks(stood, at, n),
        Field::MappedBlocksCount => mapped(stood, at, n),
    }
}

fn may_type(stood: &Stood) -> bool
    ensures { result ≡ may_type stood.now }
{
    is_free(stood.stage, stood.typed)
}

/// The element that names SHA-256.
fn type_named(mut stood: Stood, at: u64) -> Result<Stood, MapFault>
    ensures { Answers (stands at stood Item.ChecksumType) result }
{
    if !may_type(&stood) {
        return Err(MapFault::BadMap { place: at });
    }
    stood.typed = true;
    Ok(stood)
}

/// The fault of another digest, where the element may stand here.
fn other_type(stood: &Stood, at: u64) -> MapFault
    ensures { Refuses (stands at stood.now Item.OtherType) result }
{
    if may_type(stood) {
        MapFault::OtherDigest { place: at }
    } else {
        MapFault::BadMap { place: at }
    }
}

/// The fault of another version, where the tag may stand here.
fn other_start(stood: &Stood, at: u64) -> MapFault
    ensures { Refuses (stands at stood.now Item.OtherStart) result }
{
    if is_front(stood.stage) {
        MapFault::OtherVersion { place: at }
    } else {
        MapFault::BadMap { place: at }
    }
}

/// The element with the text's sum.
fn sum(mut stood: Stood, at: u64, place: usize, digest: [u8; 32]) -> Result<Stood, MapFault>
    requires { at + place < 2 ^ 64 }
    ensures { Answers (sum_stands at stood place digest) result }
{
    if !is_free(stood.stage, stood.sum.is_some()) {
        return Err(MapFault::BadMap { place: at });
    }
    let at = at + place as u64;
    stood.sum = Some(Sum { at, digest });
    Ok(stood)
}

/// The opening tag of the block map.
fn map_start(mut stood: Stood, at: u64) -> Result<Stood, MapFault>
    ensures { Answers (stands at stood Item.MapStart) result }
{
    if !is_free(stood.stage, stood.begun) {
        return Err(MapFault::BadMap { place: at });
    }
    stood.stage = Stage::Map;
    stood.begun = true;
    Ok(stood)
}

fn may_range(stood: &Stood, range: Range) -> bool
    requires { AreBelow stood.now.ranges }
    ensures { result ≡ (is_map stood.now.stage && may_follow stood.now.ranges range) }
{
    is_map(stood.stage) && may_follow(stood.ranges.as_slice(), range)
}

/// A range. Takes memory.
fn range(mut stood: Stood, at: u64, range: Range) -> Result<Stood, MapFault>
    requires { AreBelow stood.ranges }
    ensures { Answers (range_stands at stood range) result }
{
    if !may_range(&stood, range) {
        return Err(MapFault::BadMap { place: at });
    }
    stood.ranges.push(range)?;
    Ok(stood)
}

/// The values, where all have stood.
fn told_of(stood: &Stood) -> Option<Told>
    ensures { result ≡ told_of stood.now }
{
    let size = stood.size?;
    let block = stood.block?;
    let blocks = stood.blocks?;
    let mapped = stood.mapped?;
    let sum = stood.sum?;
    Some(Told {
        size,
        block,
        blocks,
        mapped,
        sum,
    })
}

fn may_end(stood: &Stood) -> bool
    ensures { result ≡ may_end stood.now }
{
    is_inside(stood.stage) && stood.typed && stood.begun && told_of(stood).is_some()
}

/// What a text says that ends here.
pub(crate) fn said_by(stood: &Stood) -> Option<Told>
    ensures { result ≡ said_by stood.now }
{
    if !is_behind(stood.stage) {
        return None;
    }
    told_of(stood)
}

/// An item that stands at this place, behind what has stood. Takes memory.
pub(crate) fn stand(stood: Stood, at: u64, piece: Piece) -> Result<Stood, MapFault>
    requires room { HasRoom piece.len piece.item }
    requires fits { at + piece.len < 2 ^ 64 }
    requires below { AreBelow stood.ranges }
    ensures { Answers (stands at stood piece.item) result }
{
    let stage = stood.stage;
    match piece.item {
        Item::Blank => entered(stood, at, true, blank_behind(stage)),
        Item::Declaration => entered(stood, at, is_first(stage), Stage::Front),
        Item::Start => entered(stood, at, is_front(stage), Stage::Inside),
        Item::OtherStart => Err(other_start(&stood, at)),
        Item::Number(field, n) => number(stood, at, field, n),
        Item::ChecksumType => type_named(stood, at),
        Item::OtherType => Err(other_type(&stood, at)),
        Item::Checksum(place, digest) => sum(stood, at, place, digest),
        Item::MapStart => map_start(stood, at),
        Item::Range(next) => range(stood, at, next),
        Item::MapEnd => entered(stood, at, is_map(stage), Stage::Inside),
        Item::End => {
            let right = may_end(&stood);
            entered(stood, at, right, Stage::Behind)
        }
    }
}
