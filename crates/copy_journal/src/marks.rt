ghost use Rattle.std.specs.Prelude.{◌≡◌, ℕ, ◌+◌, ◌*◌, ◌^◌, ◌<◌, ◌≤◌, All, IfErr, OnOk, OnErr, length};
ghost use Rattle.std.specs.List.Sorted.{IsStrictlyIncreasing};
ghost use Rattle.base_fields.specs.Numbers.{IsBetween};
ghost use Rattle.bench.specs.Disk.{IsSettled, Steps, TornAt, Touches};
ghost use Rattle.bench.specs.Meter.{CostsOn, IsAttached, SameNames};
ghost use Rattle.journal_format.specs.JobFields.{IsWithinLimits};
ghost use Rattle.journal_format.specs.Journals.{IsMarked, IsOpenedFor, range_mark, unit_mark};
ghost use Rattle.copy_journal.specs.Events.{AreZero, IsMarkOf};
ghost use Rattle.copy_journal.specs.Faults.{HasFailed, IsDeviceFault};

use crate::JournalFault;
use crate::pieces::write_zeros;
use base_fields::Bytes;
use bench::{Bench, BenchErr, Dev};
use journal_format::{JobId, MARKS, RECORDED};

/// What is recorded on a journal: a byte for each unit and one for each range, 0x44 where it is recorded; and how
/// many units may be written before their marks are.
#[derive(Debug, Drop)]
pub struct Marks {
    pub units: Bytes,
    pub ranges: Bytes,
    pub window: u32,
}

/// Records units by their numbers, and waits until their marks are on the journal's disk. Each mark is a write of
/// its own, so that no byte between them may be torn.
pub fn record_units<B: Bench>(bench: &mut B, id: &JobId, ks: &[u64]) -> Result<(), JournalFault>
    requires attached { IsAttached (B.meter bench.old) Dev.Journal }
    requires limits { IsWithinLimits id.now }
    requires opened { B.told → IsOpenedFor id.now ((B.disk bench.old).reads Dev.Journal) }
    requires few { IsBetween 1 16 (length ks.now) }
    requires ascending { IsStrictlyIncreasing ks.now }
    requires inside { All (λ k. k < id.now.units) ks.now }
    ensures moves { B.told → Steps Dev.Journal (TornAt (IsMarkOf ks.now)) (B.disk bench.old) (B.disk bench.new) }
    ensures marked { B.told → OnOk result (All (λ k. IsMarked ((B.disk bench.new).reads Dev.Journal) (unit_mark k)) ks.now) }
    ensures settled { OnOk result (IsSettled (B.disk bench.new) Dev.Journal) }
    ensures cause { IfErr result (IsDeviceFault (B.meter bench.old) (B.meter bench.new)) }
    ensures bill { CostsOn Dev.Journal (768 + 2 * length ks.now) (B.meter bench.old) (B.meter bench.new) }
    ensures same_names { SameNames (B.meter bench.old) (B.meter bench.new) }
{
    mark_units(bench, ks)?;
    Ok(())
}

/// Writes the marks of units, and syncs.
fn mark_units<B: Bench>(bench: &mut B, ks: &[u64]) -> Result<(), BenchErr>
    requires attached { IsAttached (B.meter bench.old) Dev.Journal }
    requires bounded { All (λ k. k < 2 ^ 32) ks.now }
    requires inside { B.told → All (λ k. unit_mark k < length ((B.disk bench.old).reads Dev.Journal)) ks.now }
    ensures moves { B.told → Steps Dev.Journal (TornAt (IsMarkOf ks.now)) (B.disk bench.old) (B.disk bench.new) }
    ensures marked { B.told → OnOk result (All (λ k. IsMarked ((B.disk bench.new).reads Dev.Journal) (unit_mark k)) ks.now) }
    ensures settled { OnOk result (IsSettled (B.disk bench.new) Dev.Journal) }
    ensures bill { CostsOn Dev.Journal (33 * length ks.now + 32) (B.meter bench.old) (B.meter bench.new) }
    ensures same_names { SameNames (B.meter bench.old) (B.meter bench.new) }
    ensures failed { OnErr result (HasFailed Dev.Journal (B.meter bench.old) (B.meter bench.new)) }
{
    for k in ks {
        bench.write_at(Dev::Journal, MARKS + *k, &[RECORDED])?;
    }
    bench.sync(Dev::Journal)?;
    Ok(())
}

/// Records a range by its number, and waits until its mark is on the journal's disk.
pub fn record_range<B: Bench>(bench: &mut B, id: &JobId, r: u64) -> Result<(), JournalFault>
    requires attached { IsAttached (B.meter bench.old) Dev.Journal }
    requires limits { IsWithinLimits id.now }
    requires opened { B.told → IsOpenedFor id.now ((B.disk bench.old).reads Dev.Journal) }
    requires inside { r < id.now.ranges }
    ensures moves { B.told → Touches Dev.Journal (range_mark id.now r) 1 (B.disk bench.old) (B.disk bench.new) }
    ensures marked { B.told → OnOk result (IsMarked ((B.disk bench.new).reads Dev.Journal) (range_mark id.now r)) }
    ensures settled { OnOk result (IsSettled (B.disk bench.new) Dev.Journal) }
    ensures cause { IfErr result (IsDeviceFault (B.meter bench.old) (B.meter bench.new)) }
    ensures bill { CostsOn Dev.Journal (768 + 2) (B.meter bench.old) (B.meter bench.new) }
    ensures same_names { SameNames (B.meter bench.old) (B.meter bench.new) }
{
    bench.write_at(Dev::Journal, MARKS + id.units + r, &[RECORDED])?;
    bench.sync(Dev::Journal)?;
    Ok(())
}

/// Takes back the records of `count` units from number `first` on, and waits until that is on the journal's disk.
pub fn clear_range<B: Bench>(
    bench: &mut B,
    id: &JobId,
    first: u64,
    count: u64,
) -> Result<(), JournalFault>
    requires attached { IsAttached (B.meter bench.old) Dev.Journal }
    requires limits { IsWithinLimits id.now }
    requires opened { B.told → IsOpenedFor id.now ((B.disk bench.old).reads Dev.Journal) }
    requires inside { first + count ≤ id.now.units }
    ensures moves { B.told → Touches Dev.Journal (unit_mark first) count (B.disk bench.old) (B.disk bench.new) }
    ensures marked { B.told → OnOk result (AreZero (unit_mark first) count ((B.disk bench.new).reads Dev.Journal)) }
    ensures settled { OnOk result (IsSettled (B.disk bench.new) Dev.Journal) }
    ensures cause { IfErr result (IsDeviceFault (B.meter bench.old) (B.meter bench.new)) }
    ensures bill { CostsOn Dev.Journal (768 + 2 * count) (B.meter bench.old) (B.meter bench.new) }
    ensures same_names { SameNames (B.meter bench.old) (B.meter bench.new) }
{
    write_zeros(bench, MARKS + first, count)?;
    bench.sync(Dev::Journal)?;
    Ok(())
}
