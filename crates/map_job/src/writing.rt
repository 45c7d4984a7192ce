//! The file of a map.
ghost use Rattle.std.specs.Prelude.{◌≡◌, IfErr, IsErrOf, OnOk, Some};
ghost use Rattle.block_map.specs.Maps.{IsMap};
ghost use Rattle.bmap_writer.specs.Written.{written_text};
ghost use Rattle.outside.specs.Counts.{NoneFell, Rose};
ghost use Rattle.outside.specs.Files.{OthersStay};
ghost use Rattle.map_job.specs.Faults.{IsOfWriting, IsShown};

use crate::MappingFault;
use block_map::BlockMap;
use bmap_writer::write_bmap;
use outside::{Files, WriteErr};
use std::alloc::Global;

/// Makes or replaces a file with the text of a map. After a fault nothing is said of that file. Takes the memory of the
/// text.
pub fn write_map<F: Files>(
    alloc: Global,
    files: &mut F,
    map: &BlockMap,
    out: &str,
) -> Result<(), MappingFault>
    requires { IsMap map.now }
    ensures written { F.told → OnOk result (F.file files.new out.now ≡ Some (written_text map.now)) }
    ensures fault { IfErr result IsOfWriting }
    ensures cause { IfErr result (IsShown (F.counts files.old) (F.counts files.new)) }
    ensures none_fell { NoneFell (F.counts files.old) (F.counts files.new) }
    ensures others { OthersStay out.now (F.file files.old) (F.file files.new) }
{
    let text = write_bmap(alloc, map)?;
    match make_file(files, out, text.bytes()) {
        Ok(()) => Ok(()),
        Err(WriteErr::Failed) => Err(MappingFault::FileFault),
        Err(WriteErr::NoMemory) => Err(MappingFault::NoMemory),
    }
}

// Makes or replaces a file with these bytes.
fn make_file<F: Files>(files: &mut F, name: &str, bytes: &[u8]) -> Result<(), WriteErr>
    ensures made { F.told → OnOk result (F.file files.new name.now ≡ Some bytes.now) }
    ensures failed { IsErrOf result WriteErr.Failed → Rose (F.counts files.old).faults (F.counts files.new).faults }
    ensures none_fell { NoneFell (F.counts files.old) (F.counts files.new) }
    ensures others { OthersStay name.now (F.file files.old) (F.file files.new) }
{
    files.create(name, 0)?;
    files.write_at(name, 0, bytes)?;
    Ok(())
}
