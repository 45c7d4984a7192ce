ghost use Rattle.std.specs.Prelude.{◌≡◌, ◌⊎◌, ◌+◌, ◌*◌, ◌≤◌, ◌↔◌, ◌∷◌, [], IfErr, IfOk, IsTrue, OnErr, OnOk, length};
ghost use Rattle.base_fields.specs.Fields.{written};
ghost use Rattle.bench.specs.Disk.{FromThenOn, Grows, IsSettled, Looked, Moves, StillLeaves, Steps, Torn};
ghost use Rattle.bench.specs.Meter.{CostsOn, IsAttached, SameNames};
ghost use Rattle.bench.specs.declared.Dev.{Dev};
ghost use Rattle.journal_format.specs.JobFields.{IsWithinLimits};
ghost use Rattle.journal_format.specs.Journals.{HasAllMarks, IsHeld, IsOpenedFor, IsWindow};
ghost use Rattle.copy_journal.specs.Events.{EachImage, IsClosedOrNew, IsFound, IsNew, IsOpening, IsReady, IsShut, SameGate};
ghost use Rattle.copy_journal.specs.Faults.{HasFailed, IsNewFault};

use crate::JournalFault;
use crate::looking::{Found, look};
use crate::pieces::{all_marked, write_zeros};
use bench::{Bench, BenchErr, Dev};
use journal_format::{GATE, GATE_OPEN, JobId, MAGIC, MARKS, body_of};

/// Opens the journal for a new job, with no marks, where it isn't held. The window is how many units may be written
/// before their marks are. The journal grows where it is shorter than the job needs. Takes no memory.
pub fn open_new<B: Bench>(bench: &mut B, id: &JobId, window: u32) -> Result<(), JournalFault>
    requires attached { IsAttached (B.meter bench.old) Dev.Journal }
    requires limits { IsWithinLimits id.now }
    requires window { IsWindow window }
    ensures moves { B.told → Moves (IsOpening id.now (B.disk bench.old)) (B.disk bench.old) (B.disk bench.new) }
    // Up to the end of its first sync the images are those of before; from then on each isn't held, or is opened with no mark.
    ensures after { B.told → Looked (B.disk bench.old) (B.disk bench.new)
        ⊎ FromThenOn (λ t j. IsClosedOrNew id.now j) (B.disk bench.old) (B.disk bench.new) }
    ensures now { B.told → Looked (B.disk bench.old) (B.disk bench.new) ⊎ EachImage (B.disk bench.new) (IsClosedOrNew id.now) }
    ensures unwritten { B.told → IsHeld ((B.disk bench.old).reads Dev.Journal) → Looked (B.disk bench.old) (B.disk bench.new) }
    ensures held { B.told → OnOk result (¬ IsHeld ((B.disk bench.old).reads Dev.Journal)) }
    ensures ok { B.told → OnOk result (IsNew id.now window ((B.disk bench.new).reads Dev.Journal)) }
    ensures settled { OnOk result (IsSettled (B.disk bench.new) Dev.Journal) }
    ensures cause { IfErr result (IsNewFault B.told id.now ((B.disk bench.old).reads Dev.Journal) (B.meter bench.old) (B.meter bench.new)) }
    ensures bill { CostsOn Dev.Journal (2048 + 4 * (80 + id.now.units + id.now.ranges)) (B.meter bench.old) (B.meter bench.new) }
    ensures same_names { SameNames (B.meter bench.old) (B.meter bench.new) }
{
    bench.sync(Dev::Journal)?;
    let Some(found) = look(bench)? else {
        start(bench, id, window)?;
        return Ok(());
    };
    let finished = is_finished(bench, id, &found)?;
    Err(JournalFault::JournalHeld {
        kept: found.kept(),
        finished,
    })
}

/// Whether a held journal is opened for this job and all of it is recorded.
fn is_finished<B: Bench>(bench: &mut B, id: &JobId, found: &Found) -> Result<bool, BenchErr>
    requires attached { IsAttached (B.meter bench.old) Dev.Journal }
    requires limits { IsWithinLimits id.now }
    requires found { B.told → let j = (B.disk bench.old).reads Dev.Journal in IsFound (length j) j found.now }
    ensures exact { B.told → let j = (B.disk bench.old).reads Dev.Journal in
        IfOk result (λ finished. IsTrue finished ↔ (IsOpenedFor id.now j × HasAllMarks id.now j)) }
    ensures looked { Looked (B.disk bench.old) (B.disk bench.new) }
    ensures stays { (each : Dev) → StillLeaves each (B.disk bench.old) (B.disk bench.new) }
    ensures bill { CostsOn Dev.Journal (2 * (id.now.units + id.now.ranges) + 32) (B.meter bench.old) (B.meter bench.new) }
    ensures same_names { SameNames (B.meter bench.old) (B.meter bench.new) }
    ensures failed { OnErr result (HasFailed Dev.Journal (B.meter bench.old) (B.meter bench.new)) }
{
    if !found.is_for(id) {
        return Ok(false);
    }
    let all = all_marked(bench, MARKS, id.units + id.ranges)?;
    Ok(all)
}

/// Opens a settled journal that isn't held.
fn start<B: Bench>(bench: &mut B, id: &JobId, window: u32) -> Result<(), BenchErr>
    requires attached { IsAttached (B.meter bench.old) Dev.Journal }
    requires limits { IsWithinLimits id.now }
    requires window { IsWindow window }
    requires settled { IsSettled (B.disk bench.old) Dev.Journal }
    requires closed { B.told → ¬ IsHeld ((B.disk bench.old).reads Dev.Journal) }
    ensures moves { B.told → Moves (IsClosedOrNew id.now) (B.disk bench.old) (B.disk bench.new) }
    ensures ok { B.told → OnOk result (IsNew id.now window ((B.disk bench.new).reads Dev.Journal)) }
    ensures settled { OnOk result (IsSettled (B.disk bench.new) Dev.Journal) }
    ensures bill { CostsOn Dev.Journal (1024 + 4 * (80 + id.now.units + id.now.ranges)) (B.meter bench.old) (B.meter bench.new) }
    ensures same_names { SameNames (B.meter bench.old) (B.meter bench.new) }
    ensures failed { OnErr result (HasFailed Dev.Journal (B.meter bench.old) (B.meter bench.new)) }
{
    close_gate(bench)?;
    prepare(bench, id, window)?;
    open_gate(bench)?;
    Ok(())
}

/// Closes the gate of a settled journal that isn't held, where it is open. A gate that reads otherwise is never
/// written, since that write might be torn to an open one.
fn close_gate<B: Bench>(bench: &mut B) -> Result<(), BenchErr>
    requires attached { IsAttached (B.meter bench.old) Dev.Journal }
    requires settled { IsSettled (B.disk bench.old) Dev.Journal }
    requires closed { B.told → ¬ IsHeld ((B.disk bench.old).reads Dev.Journal) }
    ensures moves { B.told → Moves (λ image. ¬ IsHeld image) (B.disk bench.old) (B.disk bench.new) }
    ensures shut { B.told → OnOk result (IsShut ((B.disk bench.new).reads Dev.Journal)) }
    ensures settled { OnOk result (IsSettled (B.disk bench.new) Dev.Journal) }
    ensures bill { CostsOn Dev.Journal 129 (B.meter bench.old) (B.meter bench.new) }
    ensures same_names { SameNames (B.meter bench.old) (B.meter bench.new) }
    ensures failed { OnErr result (HasFailed Dev.Journal (B.meter bench.old) (B.meter bench.new)) }
{
    if bench.length(Dev::Journal)? <= GATE {
        return Ok(());
    }
    let mut gate = [0];
    bench.read_at(Dev::Journal, GATE, &mut gate)?;
    if gate[0] != GATE_OPEN {
        return Ok(());
    }
    bench.write_at(Dev::Journal, GATE, &[0])?;
    bench.sync(Dev::Journal)?;
    Ok(())
}

/// Writes all of a new journal but its gate, and waits until that is on its disk.
fn prepare<B: Bench>(bench: &mut B, id: &JobId, window: u32) -> Result<(), BenchErr>
    requires attached { IsAttached (B.meter bench.old) Dev.Journal }
    requires limits { IsWithinLimits id.now }
    requires window { IsWindow window }
    ensures moves { B.told → Steps Dev.Journal SameGate (B.disk bench.old) (B.disk bench.new) }
    ensures ready { B.told → OnOk result (IsReady id.now window ((B.disk bench.new).reads Dev.Journal)) }
    ensures settled { OnOk result (IsSettled (B.disk bench.new) Dev.Journal) }
    ensures bill { CostsOn Dev.Journal (512 + 4 * (80 + id.now.units + id.now.ranges)) (B.meter bench.old) (B.meter bench.new) }
    ensures same_names { SameNames (B.meter bench.old) (B.meter bench.new) }
    ensures failed { OnErr result (HasFailed Dev.Journal (B.meter bench.old) (B.meter bench.new)) }
{
    lengthen(bench, MARKS + id.units + id.ranges)?;
    bench.write_at(Dev::Journal, 0, &MAGIC)?;
    bench.write_at(Dev::Journal, GATE + 1, &body_of(id, window as u8))?;
    write_zeros(bench, MARKS, id.units + id.ranges)?;
    bench.sync(Dev::Journal)?;
    Ok(())
}

/// Grows the journal to a length, where it is shorter.
fn lengthen<B: Bench>(bench: &mut B, whole: u64) -> Result<(), BenchErr>
    requires { IsAttached (B.meter bench.old) Dev.Journal }
    ensures grows { B.told → Grows whole (B.disk bench.old) (B.disk bench.new) }
    ensures long { B.told → OnOk result (whole ≤ length ((B.disk bench.new).reads Dev.Journal)) }
    ensures bill { CostsOn Dev.Journal (64 + whole) (B.meter bench.old) (B.meter bench.new) }
    ensures same_names { SameNames (B.meter bench.old) (B.meter bench.new) }
    ensures failed { OnErr result (HasFailed Dev.Journal (B.meter bench.old) (B.meter bench.new)) }
{
    if bench.length(Dev::Journal)? < whole {
        bench.grow(whole)?;
    }
    Ok(())
}

/// Opens the gate of a settled journal, and waits until that is on its disk.
fn open_gate<B: Bench>(bench: &mut B) -> Result<(), BenchErr>
    requires attached { IsAttached (B.meter bench.old) Dev.Journal }
    requires settled { IsSettled (B.disk bench.old) Dev.Journal }
    requires inside { B.told → 9 ≤ length ((B.disk bench.old).reads Dev.Journal) }
    ensures moves { B.told → Moves (Torn 8 1 ((B.disk bench.old).reads Dev.Journal)) (B.disk bench.old) (B.disk bench.new) }
    ensures open { B.told → OnOk result ((B.disk bench.new).reads Dev.Journal ≡ written ((B.disk bench.old).reads Dev.Journal) 8 (0x47 ∷ [])) }
    ensures settled { OnOk result (IsSettled (B.disk bench.new) Dev.Journal) }
    ensures bill { CostsOn Dev.Journal 65 (B.meter bench.old) (B.meter bench.new) }
    ensures same_names { SameNames (B.meter bench.old) (B.meter bench.new) }
    ensures failed { OnErr result (HasFailed Dev.Journal (B.meter bench.old) (B.meter bench.new)) }
{
    bench.write_at(Dev::Journal, GATE, &[GATE_OPEN])?;
    bench.sync(Dev::Journal)?;
    Ok(())
}
