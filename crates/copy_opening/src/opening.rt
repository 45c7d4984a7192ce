ghost use Rattle.std.specs.Prelude.{◌≡◌, ◌+◌, ◌*◌, ◌≤◌, IfErr, IfOk, OnOk, length, replicate};
ghost use Rattle.bench.specs.Disk.{IsSettled, Looked, Moves};
ghost use Rattle.bench.specs.Meter.{Costs, CostsOn, IsAttached, SameNames};
ghost use Rattle.journal_format.specs.JobFields.{IsWithinLimits};
ghost use Rattle.journal_format.specs.Journals.{IsHeld, IsOpenedFor, IsWindow};
ghost use Rattle.copy_states.specs.Jobs.{IsJobOf};
ghost use Rattle.copy_laws.specs.Opening.{SameMarks};
ghost use Rattle.copy_journal.specs.Events.{AreMarks, IsOpening};
ghost use Rattle.copy_opening.specs.Faults.{IsJournalFault, IsOpenFault, IsTargetFault, IsUntouched, IsUnwritten};
ghost use Rattle.copy_opening.specs.Openings.{AreZeros, IsOpenedAnew, KeepsOwn, OpeningIsNarrow, OpeningKeepsMarks, OpeningKeepsSince, Opens};
ghost use Rattle.copy_opening.specs.declared.opening.Mode.{Mode};

use crate::OpenFault;
use base_fields::{Bytes, NoMemory};
use bench::{Bench, Dev};
use block_map::BlockMap;
use copy_journal::{JobId, JournalFault, Marks, open_new, open_old};
use std::alloc::Global;

/// How a copy is opened.
#[derive(Clone, Copy, Debug, PartialEq, Eq)]
pub enum Mode {
    /// On a journal that isn't held, with no marks.
    Fresh,
    /// On the journal of a copy that was stopped, with its marks and its window.
    Again,
}

/// Opens a copy: waits until the target is on its disk, and opens the journal. Answers the journal's marks. The window
/// is used in the mode `Fresh` alone. All memory is taken before the first write.
pub fn open_copy<B: Bench>(
    alloc: Global,
    bench: &mut B,
    map: &BlockMap,
    id: &JobId,
    mode: Mode,
    window: u32,
) -> Result<Marks, OpenFault>
    requires target { IsAttached (B.meter bench.old) Dev.Target }
    requires journal { IsAttached (B.meter bench.old) Dev.Journal }
    requires limits { IsWithinLimits id.now }
    requires job { IsJobOf id.now map.now }
    requires window { mode ≡ Mode.Fresh → IsWindow window }
    ensures opens { B.told → Opens id.now (B.disk bench.old) (B.disk bench.new) }
    ensures own { B.told → KeepsOwn id.now (B.disk bench.old) (B.disk bench.new) }
    ensures narrow { B.told → OpeningIsNarrow id.now (B.disk bench.old) (B.disk bench.new) }
    ensures keeps { B.told → OpeningKeepsMarks id.now (B.disk bench.old) (B.disk bench.new) }
    ensures since { B.told → OpeningKeepsSince id.now (B.disk bench.old) (B.disk bench.new) }
    ensures again { mode ≡ Mode.Again → Looked (B.disk bench.old) (B.disk bench.new) }
    ensures kept { B.told → IsHeld ((B.disk bench.old).reads Dev.Journal) → Looked (B.disk bench.old) (B.disk bench.new) }
    ensures unwritten { B.told → IfErr result (λ fault. IsUnwritten fault → Looked (B.disk bench.old) (B.disk bench.new)) }
    ensures fits { B.told → OnOk result (map.now.size ≤ length ((B.disk bench.old).reads Dev.Target)) }
    ensures opened { B.told → OnOk result (IsOpenedFor id.now ((B.disk bench.new).reads Dev.Journal)) }
    ensures marked { B.told → IfOk result (AreMarks id.now ((B.disk bench.new).reads Dev.Journal)) }
    ensures window { mode ≡ Mode.Fresh → IfOk result (AreZeros id.now window) }
    ensures same_marks { B.told → OnOk result (SameMarks id.now ((B.disk bench.old).reads Dev.Journal) ((B.disk bench.new).reads Dev.Journal)) }
    ensures new { B.told → mode ≡ Mode.Fresh → OnOk result (IsOpenedAnew id.now window ((B.disk bench.old).reads Dev.Journal) ((B.disk bench.new).reads Dev.Journal)) }
    ensures settled_target { B.told → OnOk result (IsSettled (B.disk bench.new) Dev.Target) }
    ensures settled { OnOk result (IsSettled (B.disk bench.new) Dev.Journal) }
    ensures cause { IfErr result (IsOpenFault B.told mode id.now map.now.size ((B.disk bench.old).reads Dev.Target) ((B.disk bench.old).reads Dev.Journal) (B.meter bench.old) (B.meter bench.new)) }
    ensures bill { Costs (3072 + 4 * (80 + id.now.units + id.now.ranges)) (B.meter bench.old) (B.meter bench.new) }
    ensures same_names { SameNames (B.meter bench.old) (B.meter bench.new) }
{
    settle_target(bench, map)?;
    let marks = open_journal(alloc, bench, id, mode, window)?;
    Ok(marks)
}

/// Waits until a target that has room for the image is on its disk.
fn settle_target<B: Bench>(bench: &mut B, map: &BlockMap) -> Result<(), OpenFault>
    requires attached { IsAttached (B.meter bench.old) Dev.Target }
    ensures looked { Looked (B.disk bench.old) (B.disk bench.new) }
    ensures fits { B.told → OnOk result (map.now.size ≤ length ((B.disk bench.old).reads Dev.Target)) }
    ensures settled { OnOk result (IsSettled (B.disk bench.new) Dev.Target) }
    ensures cause { IfErr result (IsTargetFault B.told map.now.size ((B.disk bench.old).reads Dev.Target) (B.meter bench.old) (B.meter bench.new)) }
    ensures bill { CostsOn Dev.Target 64 (B.meter bench.old) (B.meter bench.new) }
    ensures same_names { SameNames (B.meter bench.old) (B.meter bench.new) }
{
    let has = bench.length(Dev::Target)?;
    if has < map.size {
        return Err(OpenFault::TargetTooSmall {
            has,
            needs: map.size,
        });
    }
    bench.sync(Dev::Target)?;
    Ok(())
}

/// Opens the journal in a mode.
fn open_journal<B: Bench>(
    alloc: Global,
    bench: &mut B,
    id: &JobId,
    mode: Mode,
    window: u32,
) -> Result<Marks, JournalFault>
    requires attached { IsAttached (B.meter bench.old) Dev.Journal }
    requires limits { IsWithinLimits id.now }
    requires window { mode ≡ Mode.Fresh → IsWindow window }
    ensures moves { B.told → Moves (IsOpening id.now (B.disk bench.old)) (B.disk bench.old) (B.disk bench.new) }
    ensures again { mode ≡ Mode.Again → Looked (B.disk bench.old) (B.disk bench.new) }
    ensures kept { B.told → IsHeld ((B.disk bench.old).reads Dev.Journal) → Looked (B.disk bench.old) (B.disk bench.new) }
    ensures unwritten { B.told → IfErr result (λ fault. IsUntouched fault → Looked (B.disk bench.old) (B.disk bench.new)) }
    ensures opened { B.told → OnOk result (IsOpenedFor id.now ((B.disk bench.new).reads Dev.Journal)) }
    ensures marked { B.told → IfOk result (AreMarks id.now ((B.disk bench.new).reads Dev.Journal)) }
    ensures window { mode ≡ Mode.Fresh → IfOk result (AreZeros id.now window) }
    ensures same_marks { B.told → OnOk result (SameMarks id.now ((B.disk bench.old).reads Dev.Journal) ((B.disk bench.new).reads Dev.Journal)) }
    ensures new { B.told → mode ≡ Mode.Fresh → OnOk result (IsOpenedAnew id.now window ((B.disk bench.old).reads Dev.Journal) ((B.disk bench.new).reads Dev.Journal)) }
    ensures settled { OnOk result (IsSettled (B.disk bench.new) Dev.Journal) }
    ensures cause { IfErr result (IsJournalFault B.told mode id.now ((B.disk bench.old).reads Dev.Journal) (B.meter bench.old) (B.meter bench.new)) }
    ensures bill { CostsOn Dev.Journal (2048 + 4 * (80 + id.now.units + id.now.ranges)) (B.meter bench.old) (B.meter bench.new) }
    ensures same_names { SameNames (B.meter bench.old) (B.meter bench.new) }
{
    match mode {
        Mode::Fresh => {
            let marks = zero_marks(alloc, id, window)?;
            open_new(bench, id, window)?;
            Ok(marks)
        }
        Mode::Again => {
            let marks = open_old(alloc, bench, id)?;
            Ok(marks)
        }
    }
}

/// The marks of a job of which nothing is recorded, with this window.
fn zero_marks(alloc: Global, id: &JobId, window: u32) -> Result<Marks, NoMemory>
    ensures { IfOk result (AreZeros id.now window) }
{
    let units = zeros(alloc, id.units as usize)?;
    let ranges = zeros(alloc, id.ranges as usize)?;
    Ok(Marks {
        units,
        ranges,
        window,
    })
}

/// So many zeros.
fn zeros(alloc: Global, count: usize) -> Result<Bytes, NoMemory>
    ensures { IfOk result (λ zeros. zeros ≡ replicate count 0) }
{
    Ok(Bytes::from_vec(vec![in alloc; 0; count]?))
}
