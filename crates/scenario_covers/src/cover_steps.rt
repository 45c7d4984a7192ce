//! Steps on a cover, on the map that is made of it, and on the map's units.
ghost use Rattle.block_map.specs.Maps.{IsMap};

use crate::ranges::{count, read_ranges};
use anyhow::{Result, bail};
use base_fields::Span;
use block_map::{BlockMap, MAX_RANGES, Range, UnitFault, Units};
use hex::FromHex;
use scenario_words::{Arguments, hex_of};
use span_cover::Cover;
use std::alloc::Global;

/// No offset of a cover is at or above 2^44.
const END: u64 = 1 << 44;

/// The most bytes of an image that has a map.
const SIZE: u64 = 1 << 43;

/// The most units that are shown themselves.
const SHOWN: u64 = 20;

/// A step on the cover.
#[derive(Debug, Drop)]
pub enum CoverStep {
    /// Adds offsets.
    Add {
        span: Span,
    },
    /// Takes offsets away.
    TakeOut {
        span: Span,
    },
    /// Whether the cover has an offset of a span.
    Meets {
        span: Span,
    },
    /// The runs of blocks that the cover meets.
    Runs {
        size: u64,
        block: u32,
    },
    /// The map, of which one range may be given a digest.
    Map {
        size: u64,
        block: u32,
        digest: Option<RangeDigest>,
    },
    /// The units of the map.
    Units {
        size: u64,
        block: u32,
        unit: u32,
    },
    /// The unit of a number.
    Unit {
        size: u64,
        block: u32,
        unit: u32,
        number: u64,
    },
    /// How many blocks are in ranges.
    BlocksIn {
        ranges: Vec<Range>,
    },
    /// All units of the range that has the unit of a number.
    UnitRange {
        size: u64,
        block: u32,
        unit: u32,
        number: u64,
    },
}

/// The digest of the range of a number.
#[derive(Clone, Copy, Debug, PartialEq, Eq)]
pub struct RangeDigest {
    range: usize,
    digest: [u8; 32],
}

impl CoverStep {
    /// The step of a verb, where it is one of these.
    pub fn read(alloc: Global, verb: &str, words: &mut Arguments) -> Result<Option<CoverStep>> {
        let step = match verb {
            "cover-add" => CoverStep::Add {
                span: read_span(words)?,
            },
            "cover-take" => CoverStep::TakeOut {
                span: read_span(words)?,
            },
            "cover-meets" => CoverStep::Meets {
                span: read_span(words)?,
            },
            "cover-runs" => CoverStep::Runs {
                size: words.number("a size")?,
                block: words.word("a block's size")?,
            },
            "map" => read_map(words)?,
            "units" => CoverStep::Units {
                size: words.number("a size")?,
                block: words.word("a block's size")?,
                unit: words.word("a unit's size")?,
            },
            "unit" => read_unit(words)?,
            "blocks-in" => CoverStep::BlocksIn {
                ranges: read_ranges(alloc, words)?,
            },
            "unit-range" => read_unit_range(words)?,
            _ => return Ok(None),
        };
        Ok(Some(step))
    }

    /// Does it, and says what came of it.
    pub fn play(self, alloc: Global, cover: &mut Cover) -> Result<String> {
        match self {
            CoverStep::Add { span } => add(alloc, cover, span),
            CoverStep::TakeOut { span } => take_out(alloc, cover, span),
            CoverStep::Meets { span } => meets(alloc, cover, span),
            CoverStep::Runs { size, block } => runs(alloc, cover, size, block),
            CoverStep::Map {
                size,
                block,
                digest,
            } => map(alloc, cover, size, block, digest),
            CoverStep::Units { size, block, unit } => units(alloc, cover, size, block, unit),
            CoverStep::Unit {
                size,
                block,
                unit,
                number,
            } => one_unit(alloc, cover, size, block, unit, number),
            CoverStep::BlocksIn { ranges } => count(alloc, &ranges),
            CoverStep::UnitRange {
                size,
                block,
                unit,
                number,
            } => unit_range(alloc, cover, size, block, unit, number),
        }
    }
}

fn read_span(words: &mut Arguments) -> Result<Span> {
    let at = words.number("a place")?;
    let len = words.number("a length")?;
    Ok(Span { at, len })
}

fn read_map(words: &mut Arguments) -> Result<CoverStep> {
    let size = words.number("a size")?;
    let block = words.word("a block's size")?;
    let digest = if words.is_empty() {
        None
    } else {
        Some(read_digest(words)?)
    };
    Ok(CoverStep::Map {
        size,
        block,
        digest,
    })
}

fn read_digest(words: &mut Arguments) -> Result<RangeDigest> {
    let range = words.count("a range")?;
    let text = words.text("a digest")?;
    match <[u8; 32] as FromHex>::from_hex(text.as_str()) {
        Ok(digest) => Ok(RangeDigest { range, digest }),
        Err(_) => bail!("no 64 hexadecimal digits"),
    }
}

fn read_unit(words: &mut Arguments) -> Result<CoverStep> {
    Ok(CoverStep::Unit {
        size: words.number("a size")?,
        block: words.word("a block's size")?,
        unit: words.word("a unit's size")?,
        number: words.number("a unit")?,
    })
}

fn read_unit_range(words: &mut Arguments) -> Result<CoverStep> {
    Ok(CoverStep::UnitRange {
        size: words.number("a size")?,
        block: words.word("a block's size")?,
        unit: words.word("a unit's size")?,
        number: words.number("a unit")?,
    })
}

fn add(alloc: Global, cover: &mut Cover, span: Span) -> Result<String> {
    if span.at > END || span.len > END - span.at {
        bail!("past 2^44");
    }
    cover.add(span)?;
    spans(alloc, cover)
}

fn take_out(alloc: Global, cover: &mut Cover, span: Span) -> Result<String> {
    if span.at > END || span.len > END - span.at {
        bail!("past 2^44");
    }
    cover.take_out(span)?;
    spans(alloc, cover)
}

fn spans(alloc: Global, cover: &Cover) -> Result<String> {
    let text = spans_of(alloc, cover.spans())?;
    Ok(format!(in alloc; "cover{text}")?)
}

/// Each span as its place and its length.
fn spans_of(alloc: Global, spans: &[Span]) -> Result<String> {
    let mut line = String::new(alloc);
    for span in spans {
        let at = span.at;
        let len = span.len;
        write!(line, " {at}+{len}")?;
    }
    Ok(line)
}

fn meets(alloc: Global, cover: &Cover, span: Span) -> Result<String> {
    if span.at > END || span.len > END - span.at {
        bail!("past 2^44");
    }
    let meets = cover.meets(span);
    Ok(format!(in alloc; "meets {meets}")?)
}

fn runs(alloc: Global, cover: &Cover, size: u64, block: u32) -> Result<String> {
    if block == 0 {
        bail!("no size of a block");
    }
    let runs = cover.runs(alloc, size, block)?;
    let text = spans_of(alloc, runs.as_slice())?;
    Ok(format!(in alloc; "runs{text}")?)
}

fn map(
    alloc: Global,
    cover: &Cover,
    size: u64,
    block: u32,
    digest: Option<RangeDigest>,
) -> Result<String> {
    if size > SIZE || !block.is_power_of_two() || block < 512 || block > 65_536 {
        bail!("no size of an image or of a block");
    }
    if cover.spans().len() > MAX_RANGES {
        bail!("too many spans");
    }
    let map = BlockMap::from_cover(alloc, cover, size, block)?;
    show_map(alloc, &with_digest(map, digest))
}

fn with_digest(mut map: BlockMap, given: Option<RangeDigest>) -> BlockMap
    requires { IsMap map }
    ensures { IsMap result }
{
    match given {
        Some(given) if given.range < map.ranges.len() => {
            map.set_digest(given.range, given.digest);
            map
        }
        _ => map,
    }
}

/// How many blocks there are and how many are mapped, and each range as its first and last block, its bytes and its
/// digest.
fn show_map(alloc: Global, map: &BlockMap) -> Result<String>
    requires { IsMap map.now }
{
    let blocks = map.block_count();
    let mapped = map.mapped_count();
    let mut line = format!(in alloc; "{blocks} blocks, {mapped} mapped")?;
    for k in 0..map.ranges.len() {
        let span = map.range_bytes(k);
        let at = span.at;
        let len = span.len;
        if let Some(range) = map.ranges.get(k) {
            put_range(alloc, &mut line, range)?;
        }
        write!(line, " at {at}+{len}")?;
    }
    Ok(line)
}

fn put_range(alloc: Global, line: &mut String, range: &Range) -> Result<()> {
    let first = range.first;
    let last = range.last;
    write!(line, " {first}-{last}")?;
    if let Some(digest) = &range.digest {
        line.push_str(" sha256=")?;
        line.push_str(&hex_of(alloc, digest)?)?;
    }
    Ok(())
}

/// The units of the map, or the fault that there are too many.
fn units_of(
    alloc: Global,
    cover: &Cover,
    size: u64,
    block: u32,
    unit: u32,
) -> Result<Result<Units, UnitFault>> {
    if size > SIZE || !block.is_power_of_two() || block < 512 || block > 65_536 {
        bail!("no size of an image or of a block");
    }
    if !unit.is_power_of_two() || unit < 65_536 || unit > 4_194_304 {
        bail!("no size of a unit");
    }
    if cover.spans().len() > MAX_RANGES {
        bail!("too many spans");
    }
    let map = BlockMap::from_cover(alloc, cover, size, block)?;
    Ok(map.units(alloc, unit))
}

fn units(alloc: Global, cover: &Cover, size: u64, block: u32, unit: u32) -> Result<String> {
    match &units_of(alloc, cover, size, block, unit)? {
        Ok(units) => show_units(alloc, units),
        Err(fault) => Ok(format!(in alloc; "no units: {fault:?}")?),
    }
}

fn show_units(alloc: Global, units: &Units) -> Result<String> {
    let count = units.count();
    let mut line = format!(in alloc; "{count} units")?;
    if count <= SHOWN {
        for number in 0..count {
            line.push_str(&unit_of(alloc, units, number)?)?;
        }
    }
    Ok(line)
}

/// A unit as its bytes and the number of its range.
fn unit_of(alloc: Global, units: &Units, number: u64) -> Result<String> {
    if number >= units.count() {
        bail!("no such unit");
    }
    let span = units.span(number);
    let at = span.at;
    let len = span.len;
    let range = units.range_of(number);
    Ok(format!(in alloc; " {at}+{len} of {range}")?)
}

fn one_unit(
    alloc: Global,
    cover: &Cover,
    size: u64,
    block: u32,
    unit: u32,
    number: u64,
) -> Result<String> {
    match &units_of(alloc, cover, size, block, unit)? {
        Ok(units) => {
            let text = unit_of(alloc, units, number)?;
            Ok(format!(in alloc; "unit {number}{text}")?)
        }
        Err(fault) => Ok(format!(in alloc; "no units: {fault:?}")?),
    }
}

fn unit_range(
    alloc: Global,
    cover: &Cover,
    size: u64,
    block: u32,
    unit: u32,
    number: u64,
) -> Result<String> {
    match &units_of(alloc, cover, size, block, unit)? {
        Ok(units) => range_of(alloc, units, number),
        Err(fault) => Ok(format!(in alloc; "no units: {fault:?}")?),
    }
}

/// The number of the range that has a unit, and its units as the first one and how many there are.
fn range_of(alloc: Global, units: &Units, number: u64) -> Result<String> {
    if number >= units.count() {
        bail!("no such unit");
    }
    let range = units.range_of(number);
    let first = units.first_of(range);
    let count = units.count_of(range);
    Ok(format!(in alloc; "range {range} has units {first}+{count}")?)
}
