ghost use Rattle.std.specs.Prelude.{◌≡◌, ◌+◌, ◌*◌, ◌≤◌, IfErr, IfOk, OnErr, OnOk, length, take, drop, vec_len};
ghost use Rattle.block_map.specs.Units.{max_units};
ghost use Rattle.bench.specs.Disk.{IsSettled, Looked, StillLeaves};
ghost use Rattle.bench.specs.Meter.{CostsOn, IsAttached, SameNames};
ghost use Rattle.bench.specs.declared.Dev.{Dev};
ghost use Rattle.journal_format.specs.JobFields.{IsWithinLimits};
ghost use Rattle.journal_format.specs.Journals.{IsOpenedFor};
ghost use Rattle.copy_journal.specs.Events.{AreMarks};
ghost use Rattle.copy_journal.specs.Faults.{IsOldFault, IsReadFault};

use crate::looking::{Found, look};
use crate::{JournalFault, Marks};
use base_fields::{Bytes, NoMemory};
use bench::{Bench, Dev};
use journal_format::{JobId, MARKS};
use std::alloc::Global;

/// The marks of a journal that is opened for this job. Takes memory for them.
pub fn open_old<B: Bench>(alloc: Global, bench: &mut B, id: &JobId) -> Result<Marks, JournalFault>
    requires attached { IsAttached (B.meter bench.old) Dev.Journal }
    requires limits { IsWithinLimits id.now }
    ensures opened { B.told → OnOk result (IsOpenedFor id.now ((B.disk bench.old).reads Dev.Journal)) }
    ensures marked { B.told → IfOk result (AreMarks id.now ((B.disk bench.old).reads Dev.Journal)) }
    ensures settled { OnOk result (IsSettled (B.disk bench.new) Dev.Journal) }
    ensures unwritten { Looked (B.disk bench.old) (B.disk bench.new) }
    ensures same_target { StillLeaves Dev.Target (B.disk bench.old) (B.disk bench.new) }
    ensures cause { IfErr result (IsOldFault B.told id.now ((B.disk bench.old).reads Dev.Journal) (B.meter bench.old) (B.meter bench.new)) }
    ensures bill { CostsOn Dev.Journal (2048 + 4 * (80 + id.now.units + id.now.ranges)) (B.meter bench.old) (B.meter bench.new) }
    ensures same_names { SameNames (B.meter bench.old) (B.meter bench.new) }
{
    bench.sync(Dev::Journal)?;
    let Some(found) = look(bench)? else {
        return Err(JournalFault::NoJournal);
    };
    if !found.is_for(id) {
        return Err(JournalFault::JournalForeign {
            kept: found.kept(),
            given: *id,
            length: found.length,
        });
    }
    let units = read_marks(alloc, bench, MARKS, id.units)?;
    let ranges = read_marks(alloc, bench, MARKS + id.units, id.ranges)?;
    Ok(Marks {
        units,
        ranges,
        window: found.held.window,
    })
}

/// So many marks of the journal, from an offset on.
fn read_marks<B: Bench>(
    alloc: Global,
    bench: &mut B,
    at: u64,
    count: u64,
) -> Result<Bytes, JournalFault>
    requires attached { IsAttached (B.meter bench.old) Dev.Journal }
    requires inside { B.told → at + count ≤ length ((B.disk bench.old).reads Dev.Journal) }
    requires few { count ≤ max_units }
    ensures exact { B.told → IfOk result (λ marks. marks ≡ take count (drop at ((B.disk bench.old).reads Dev.Journal))) }
    ensures looked { Looked (B.disk bench.old) (B.disk bench.new) }
    ensures stays { (each : Dev) → StillLeaves each (B.disk bench.old) (B.disk bench.new) }
    ensures bill { CostsOn Dev.Journal 32 (B.meter bench.old) (B.meter bench.new) }
    ensures same_names { SameNames (B.meter bench.old) (B.meter bench.new) }
    ensures cause { IfErr result (IsReadFault (B.meter bench.old) (B.meter bench.new)) }
{
    let mut marks = zeros(alloc, count as usize)?;
    bench.read_at(Dev::Journal, at, marks.as_mut_slice())?;
    Ok(Bytes::from_vec(marks))
}

/// Zeros in memory of their own.
fn zeros(alloc: Global, count: usize) -> Result<Vec<u8>, NoMemory>
    ensures { IfOk result (λ zeros. vec_len zeros ≡ count) }
{
    Ok(vec![in alloc; 0; count]?)
}
