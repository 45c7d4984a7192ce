//! Steps that read and make the texts of block maps.
ghost use Rattle.block_map.specs.Maps.{IsMap};

use crate::many_ranges::text_of;
use anyhow::{Result, bail};
use block_map::{BlockMap, Range};
use bmap_grammar::MapFault;
use bmap_reader::read_bmap;
use scenario_words::{Arguments, Setting, hex_of};
use std::alloc::Global;

/// The most ranges that are shown themselves.
const SHOWN: usize = 20;

/// A step on the text of a block map.
#[derive(Debug, Drop)]
pub enum MapStep {
    /// The map that a file's text says, or why it says none.
    Read { name: String },
    /// Makes a file of the text of a map with so many ranges.
    Many { name: String, count: u64 },
}

impl MapStep {
    /// The step of a verb, where it is one of these.
    pub fn read(verb: &str, words: &mut Arguments) -> Result<Option<MapStep>> {
        let step = match verb {
            "read-map" => MapStep::Read {
                name: words.text("a file")?,
            },
            "many-ranges" => MapStep::Many {
                name: words.text("a file")?,
                count: words.number("a count")?,
            },
            _ => return Ok(None),
        };
        Ok(Some(step))
    }

    /// Does it, and says what came of it.
    pub fn play(self, setting: &mut Setting) -> Result<String> {
        match self {
            MapStep::Read { name } => read(setting, &name),
            MapStep::Many { name, count } => {
                let text = text_of(setting.alloc, count)?;
                setting.store(&name, text.as_bytes())
            }
        }
    }
}

fn read(setting: &Setting, name: &str) -> Result<String> {
    let text = setting.copy_of(name)?;
    match read_bmap(setting.alloc, &text) {
        Ok(map) => show_map(setting.alloc, &map),
        Err(fault) => show_fault(setting.alloc, fault),
    }
}

/// The sizes and counts of a map, and its first ranges.
fn show_map(alloc: Global, map: &BlockMap) -> Result<String>
    requires { IsMap map.now }
{
    let size = map.size;
    let block = map.block;
    let blocks = map.block_count();
    let mapped = map.mapped_count();
    let count = map.ranges.len();
    let mut line = format!(in alloc;
        "map size={size} block={block} blocks={blocks} mapped={mapped} ranges={count}"
    )?;
    for range in map.ranges.as_slice().iter().take(SHOWN) {
        put_range(alloc, &mut line, range)?;
    }
    Ok(line)
}

/// A range as its first and last block, and its digest.
fn put_range(alloc: Global, line: &mut String, range: &Range) -> Result<()> {
    let first = range.first;
    let last = range.last;
    write!(line, " {first}-{last} ")?;
    match &range.digest {
        Some(digest) => line.push_str(&hex_of(alloc, digest)?)?,
        None => line.push_str("-")?,
    }
    Ok(())
}

fn show_fault(alloc: Global, fault: MapFault) -> Result<String> {
    match fault {
        MapFault::BadMap { place } => Ok(format!(in alloc; "no map: BadMap place={place}")?),
        MapFault::OtherVersion { place } => Ok(format!(in alloc;
            "no map: OtherVersion place={place}"
        )?),
        MapFault::OtherDigest { place } => Ok(format!(in alloc;
            "no map: OtherDigest place={place}"
        )?),
        MapFault::BadCounts { want, got } => Ok(format!(in alloc;
            "no map: BadCounts want={want} got={got}"
        )?),
        MapFault::SumDiffers { want, got } => show_sums(alloc, &want, &got),
        MapFault::NoMemory => bail!("out of memory"),
    }
}

fn show_sums(alloc: Global, want: &[u8], got: &[u8]) -> Result<String> {
    let want = hex_of(alloc, want)?;
    let got = hex_of(alloc, got)?;
    Ok(format!(in alloc; "no map: SumDiffers want={want} got={got}")?)
}
