ghost use Rattle.std.specs.Prelude.{◌≡◌, IfOk, Ok};
ghost use Rattle.block_map.specs.Maps.{IsMap};
ghost use Rattle.block_map.specs.declared.maps.BlockMap.{BlockMap as a_map};
ghost use Rattle.bmap_grammar.specs.Document.{Answers, BmapText, said};

use crate::counting::map_of;
use crate::items::read_items;
use block_map::BlockMap;
use bmap_grammar::MapFault;
use std::alloc::Global;

/// The block map of a text, as bmap 2.0 spells it. Takes memory for its ranges as they come.
///
/// It looks at each byte of the text a fixed number of times, and doesn't copy it.
pub fn read_bmap(alloc: Global, text: &[u8]) -> Result<BlockMap, MapFault>
    ensures answers { Answers (said text.now) result }
    ensures map { IfOk result (BmapText text.now) }
    ensures only { (m : a_map) → BmapText text.now m → Answers (Ok m) result }
    ensures holds { IfOk result (λ m. IsMap m) }
{
    match read_items(alloc, text) {
        Ok(stood) => map_of(text, stood),
        Err(fault) => Err(fault),
    }
}
