//! Calls that ask for a journal that is opened for the job: `open_old` shows that it is.
ghost use Rattle.std.specs.Prelude.{◌+◌, ◌<◌, ◌≤◌, All, IsTrue, length};
ghost use Rattle.std.specs.List.Sorted.{IsStrictlyIncreasing};
ghost use Rattle.base_fields.specs.Numbers.{IsBetween};
ghost use Rattle.bench.specs.Meter.{IsAttached, SameNames};
ghost use Rattle.bench.specs.declared.Dev.{Dev};
ghost use Rattle.journal_format.specs.JobFields.{IsWithinLimits};

use bench::Bench;
use copy_journal::{JobId, JournalFault, clear_range, open_old, record_range, record_units};
use std::alloc::Global;

/// Records units on the journal where it is opened for the job.
pub fn record<B: Bench>(
    alloc: Global,
    bench: &mut B,
    id: &JobId,
    ks: &[u64],
) -> Result<(), JournalFault>
    requires attached { IsAttached (B.meter bench.old) Dev.Journal }
    requires limits { IsWithinLimits id.now }
    requires few { IsBetween 1 16 (length ks.now) }
    requires ascending { IsStrictlyIncreasing ks.now }
    requires inside { All (λ k. k < id.now.units) ks.now }
    ensures { SameNames (B.meter bench.old) (B.meter bench.new) }
{
    open_old(alloc, bench, id)?;
    record_units(bench, id, ks)?;
    Ok(())
}

/// Whether these are numbers that one call may record, each below the count.
pub fn may_record(ks: &[u64], count: u64) -> bool
    ensures few { IsTrue result → IsBetween 1 16 (length ks.now) }
    ensures ascending { IsTrue result → IsStrictlyIncreasing ks.now }
    ensures inside { IsTrue result → All (λ k. k < count) ks.now }
{
    0 < ks.len() && ks.len() <= 16 && are_ascending(ks) && ks.iter().all(|k| *k < count)
}

/// Whether each number is below the next.
fn are_ascending(ks: &[u64]) -> bool
    ensures { IsTrue result → IsStrictlyIncreasing ks.now }
{
    let mut at = 1;
    while at < ks.len() {
        if ks[at - 1] >= ks[at] {
            return false;
        }
        at += 1;
    }
    true
}

/// Records a range on the journal where it is opened for the job.
pub fn mark_range<B: Bench>(
    alloc: Global,
    bench: &mut B,
    id: &JobId,
    r: u64,
) -> Result<(), JournalFault>
    requires attached { IsAttached (B.meter bench.old) Dev.Journal }
    requires limits { IsWithinLimits id.now }
    requires inside { r < id.now.ranges }
    ensures { SameNames (B.meter bench.old) (B.meter bench.new) }
{
    open_old(alloc, bench, id)?;
    record_range(bench, id, r)?;
    Ok(())
}

/// Takes records of units back on the journal where it is opened for the job.
pub fn clear<B: Bench>(
    alloc: Global,
    bench: &mut B,
    id: &JobId,
    first: u64,
    count: u64,
) -> Result<(), JournalFault>
    requires attached { IsAttached (B.meter bench.old) Dev.Journal }
    requires limits { IsWithinLimits id.now }
    requires inside { first + count ≤ id.now.units }
    ensures { SameNames (B.meter bench.old) (B.meter bench.new) }
{
    open_old(alloc, bench, id)?;
    clear_range(bench, id, first, count)?;
    Ok(())
}
