//! The map of a file.
ghost use Rattle.std.specs.Prelude.{◌≡◌, IfErr, IfOk};
ghost use Rattle.block_map.specs.Maps.{IsMap};
ghost use Rattle.job_stages.specs.Stages.{Gives};
ghost use Rattle.outside.specs.Counts.{Counts, NoneFell};
ghost use Rattle.map_source.specs.Faults.{IsShown, is_counted};
ghost use Rattle.map_source.specs.Said.{map_said, source_in};

use crate::SourceFault;
use crate::texts::read_text;
use block_map::BlockMap;
use bmap_reader::read_bmap;
use outside::Files;
use sha2::{Digest, Sha256};
use std::alloc::Global;

/// The map that a file's text is the document of, and SHA-256 of all bytes of that text.
#[derive(Debug, Drop)]
pub struct MapSource {
    pub map: BlockMap,
    pub digest: [u8; 32],
}

/// The map of a text, with the text's digest.
fn source_in(alloc: Global, text: &[u8]) -> Result<MapSource, SourceFault>
    ensures said { Gives is_counted (source_in text.now) (λ source. source) (λ fault. fault) result }
    ensures cause { (before now : Counts) → IfErr result (IsShown before now) }
    ensures holds { IfOk result (λ source. IsMap source.map) }
{
    match read_bmap(alloc, text) {
        Ok(map) => {
            let digest = Sha256::digest(text);
            Ok(MapSource { map, digest })
        }
        Err(fault) => Err(SourceFault::from(fault)),
    }
}

/// Reads the map of the file of that name, whose length is asked for once. Takes memory for the whole text, which has
/// at most 33,554,432 bytes, and for the map.
pub fn read_map<F: Files>(
    alloc: Global,
    files: &mut F,
    name: &str,
) -> Result<MapSource, SourceFault>
    ensures none_fell { NoneFell (F.counts files.old) (F.counts files.new) }
    ensures same_files { F.file files.new ≡ F.file files.old }
    ensures cause { IfErr result (IsShown (F.counts files.old) (F.counts files.new)) }
    ensures holds { IfOk result (λ source. IsMap source.map) }
    ensures said { F.told →
        Gives is_counted (map_said (F.file files.old name.now)) (λ source. source) (λ fault. fault) result }
{
    match read_text(alloc, files, name) {
        Ok(text) => source_in(alloc, text.bytes()),
        Err(fault) => Err(fault),
    }
}
