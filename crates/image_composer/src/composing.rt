ghost use Rattle.std.specs.Prelude.{◌≡◌, ℕ, ◌<◌, ◌≤◌, IsErrOf, OnOk, length};
ghost use Rattle.outside.specs.Counts.{NoneFell, Rose};
ghost use Rattle.outside.specs.Files.{IsThere, OthersStay, bytes_of};
ghost use Rattle.region_pool.specs.Buffers.{free_of};
ghost use Rattle.region_pool.specs.Uses.{IsGivenBack};
ghost use Rattle.image_layout.specs.IsLayout.{IsLayout};
ghost use Rattle.image_layout.specs.Layout.{table_parts};
ghost use Rattle.image_writes.specs.Images.{IsFilled};
ghost use Rattle.image_parts.specs.Files.{HaveNeeded, IsNeeded, part_of};
ghost use Rattle.image_tables.specs.Tables.{PutsParts};
ghost use Rattle.image_composer.specs.Images.{ComposeAnswers, IsMade, IsOwnFile, IsReadBack, StageAnswers};

use image_layout::Layout;
use image_parts::put_parts;
use image_tables::put_tables;
use image_writes::make_image;
use outside::{ComposeFault, Files, WriteErr};
use region_pool::Pool;

/// Makes the file of a layout and fills it: first with the bytes of the partitions' files, in the order of the
/// layout, then with the tables, all through one leased buffer. Takes no memory itself. After a fault the layout's
/// file may hold any bytes. The buffer is given back whatever is answered, and holds any bytes then.
pub fn compose<F: Files>(
    files: &mut F,
    layout: &Layout,
    pool: &mut Pool,
) -> Result<(), ComposeFault>
    requires free { 0 < free_of pool.old }
    requires layout { IsLayout layout.now }
    requires own { IsOwnFile layout.now }
    ensures none_fell { NoneFell (F.counts files.old) (F.counts files.new) }
    ensures failed { IsErrOf result ComposeFault.FileFault → Rose (F.counts files.old).faults (F.counts files.new).faults }
    ensures missing { (part : ℕ) → IsErrOf result (ComposeFault.Missing part) → Rose (F.counts files.old).absences (F.counts files.new).absences }
    ensures ended { (part at : ℕ) → IsErrOf result (ComposeFault.SourceShort part at) → Rose (F.counts files.old).ends (F.counts files.new).ends }
    ensures known { (part : ℕ) → IsErrOf result (ComposeFault.Missing part) → part < length layout.now.parts }
    ensures short { (part at : ℕ) → IsErrOf result (ComposeFault.SourceShort part at) → part < length layout.now.parts }
    ensures needed { (part at : ℕ) → IsErrOf result (ComposeFault.SourceShort part at) → IsNeeded (part_of layout.now.parts part) at }
    ensures others { OthersStay layout.now.file (F.file files.old) (F.file files.new) }
    ensures answers { F.told → ComposeAnswers layout.now (F.file files.old) (F.file files.new) result }
    ensures complete { F.told → HaveNeeded (F.file files.old) layout.now.parts (length layout.now.parts) → StageAnswers (Unit {0}) result }
    ensures made { F.told → OnOk result (IsMade layout.now (F.file files.old) (F.file files.new)) }
    ensures reads_back { F.told → OnOk result (IsReadBack layout.now (F.file files.new)) }
    ensures given_back { IsGivenBack pool.old pool.new }
{
    let Some(lease) = pool.lease() else {
        unreachable!()
    };
    let answer = compose_through(files, layout, pool.bytes_mut(&lease));
    pool.give(lease);
    answer
}

/// The same through a buffer.
fn compose_through<F: Files>(
    files: &mut F,
    layout: &Layout,
    buf: &mut [u8],
) -> Result<(), ComposeFault>
    requires room { 16384 ≤ length buf.old }
    requires layout { IsLayout layout.now }
    requires own { IsOwnFile layout.now }
    ensures none_fell { NoneFell (F.counts files.old) (F.counts files.new) }
    ensures failed { IsErrOf result ComposeFault.FileFault → Rose (F.counts files.old).faults (F.counts files.new).faults }
    ensures missing { (part : ℕ) → IsErrOf result (ComposeFault.Missing part) → Rose (F.counts files.old).absences (F.counts files.new).absences }
    ensures ended { (part at : ℕ) → IsErrOf result (ComposeFault.SourceShort part at) → Rose (F.counts files.old).ends (F.counts files.new).ends }
    ensures known { (part : ℕ) → IsErrOf result (ComposeFault.Missing part) → part < length layout.now.parts }
    ensures short { (part at : ℕ) → IsErrOf result (ComposeFault.SourceShort part at) → part < length layout.now.parts }
    ensures needed { (part at : ℕ) → IsErrOf result (ComposeFault.SourceShort part at) → IsNeeded (part_of layout.now.parts part) at }
    ensures others { OthersStay layout.now.file (F.file files.old) (F.file files.new) }
    ensures answers { F.told → ComposeAnswers layout.now (F.file files.old) (F.file files.new) result }
{
    let name = layout.file.text();
    make(files, layout, buf)?;
    put_parts(files, layout.parts.as_slice(), name, buf)?;
    finish(files, layout, buf)?;
    Ok(())
}

/// Makes the layout's file, with its fill at each offset.
fn make<F: Files>(files: &mut F, layout: &Layout, buf: &mut [u8]) -> Result<(), ComposeFault>
    requires room { 0 < length buf.old }
    ensures none_fell { NoneFell (F.counts files.old) (F.counts files.new) }
    ensures failed { IsErrOf result ComposeFault.FileFault → Rose (F.counts files.old).faults (F.counts files.new).faults }
    ensures missing { (part : ℕ) → ¬ IsErrOf result (ComposeFault.Missing part) }
    ensures short { (part at : ℕ) → ¬ IsErrOf result (ComposeFault.SourceShort part at) }
    ensures others { OthersStay layout.now.file (F.file files.old) (F.file files.new) }
    ensures answers { F.told → StageAnswers (IsFilled layout.now.size layout.now.fill layout.now.file (F.file files.new)) result }
{
    match make_image(files, layout.file.text(), layout.size, layout.fill, buf) {
        Ok(()) => Ok(()),
        Err(WriteErr::Failed) => Err(ComposeFault::FileFault),
        Err(WriteErr::NoMemory) => Err(ComposeFault::NoMemory),
    }
}

/// Puts the tables into the layout's file.
fn finish<F: Files>(files: &mut F, layout: &Layout, buf: &mut [u8]) -> Result<(), ComposeFault>
    requires room { 16384 ≤ length buf.old }
    requires layout { IsLayout layout.now }
    requires there { F.told → IsThere (F.file files.old) layout.now.file (length (bytes_of (F.file files.old) layout.now.file) ≡ layout.now.size) }
    ensures none_fell { NoneFell (F.counts files.old) (F.counts files.new) }
    ensures failed { IsErrOf result ComposeFault.FileFault → Rose (F.counts files.old).faults (F.counts files.new).faults }
    ensures missing { (part : ℕ) → ¬ IsErrOf result (ComposeFault.Missing part) }
    ensures short { (part at : ℕ) → ¬ IsErrOf result (ComposeFault.SourceShort part at) }
    ensures others { OthersStay layout.now.file (F.file files.old) (F.file files.new) }
    ensures answers { F.told → StageAnswers (PutsParts (table_parts layout.now) layout.now.file (F.file files.old) (F.file files.new)) result }
{
    match put_tables(files, layout, buf) {
        Ok(()) => Ok(()),
        Err(WriteErr::Failed) => Err(ComposeFault::FileFault),
        Err(WriteErr::NoMemory) => Err(ComposeFault::NoMemory),
    }
}
