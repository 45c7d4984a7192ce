ghost use Rattle.std.specs.Prelude.{◌≡◌, ℕ, ◌+◌, ◌*◌, ◌<◌, ◌≤◌, All, IfErr, OnOk, length};
ghost use Rattle.std.specs.List.Sorted.{IsStrictlyIncreasing};
ghost use Rattle.base_fields.specs.Fields.{written};
ghost use Rattle.base_fields.specs.Numbers.{IsBetween};
ghost use Rattle.bench.specs.Disk.{IsSettled, Touches};
ghost use Rattle.bench.specs.Meter.{Costs, CostsOn, IsAttached, SameNames};
ghost use Rattle.journal_format.specs.declared.jobs.JobId.{JobId};
ghost use Rattle.journal_format.specs.JobFields.{IsWithinLimits};
ghost use Rattle.journal_format.specs.Journals.{IsMarked, IsOpenedFor, range_mark, unit_mark};
ghost use Rattle.copy_journal.specs.Events.{AreZero};
ghost use Rattle.copy_stages.specs.Faults.{IsCause, IsCauseOn};
ghost use Rattle.copy_stages.specs.Stages.{CheckingKeepsSince, ClearingKeepsSince, Closes, ClosingKeepsSince, KeepsOwn, WritingKeepsSince};

use crate::DeviceFault;
use bench::{Bench, Dev};
use copy_journal::{JobId, clear_range, record_range, record_units};

/// Writes the bytes of a unit to the target, at its offset. They are pending until the target is synced; after a
/// failure the unit reads any bytes.
pub fn write_unit<B: Bench>(bench: &mut B, at: u64, bytes: &[u8]) -> Result<(), DeviceFault>
    requires attached { IsAttached (B.meter bench.old) Dev.Target }
    requires inside { B.told → at + length bytes.now ≤ length ((B.disk bench.old).reads Dev.Target) }
    ensures touches { B.told → Touches Dev.Target at (length bytes.now) (B.disk bench.old) (B.disk bench.new) }
    ensures wrote { B.told → OnOk result ((B.disk bench.new).reads Dev.Target ≡ written ((B.disk bench.old).reads Dev.Target) at bytes.now) }
    ensures since { B.told → WritingKeepsSince at (length bytes.now) (B.disk bench.old) (B.disk bench.new) }
    ensures own { B.told → (id : JobId) → KeepsOwn id (B.disk bench.old) (B.disk bench.new) }
    ensures cause { IfErr result (IsCauseOn Dev.Target (B.meter bench.old) (B.meter bench.new)) }
    ensures bill { CostsOn Dev.Target (32 + length bytes.now) (B.meter bench.old) (B.meter bench.new) }
    ensures same_names { SameNames (B.meter bench.old) (B.meter bench.new) }
{
    bench.write_at(Dev::Target, at, bytes)?;
    Ok(())
}

/// Records units that were written: waits until their bytes are on the target's disk, and only then writes their
/// marks and waits until those are on the journal's.
pub fn close_window<B: Bench>(bench: &mut B, id: &JobId, ks: &[u64]) -> Result<(), DeviceFault>
    requires target { IsAttached (B.meter bench.old) Dev.Target }
    requires journal { IsAttached (B.meter bench.old) Dev.Journal }
    requires limits { IsWithinLimits id.now }
    requires opened { B.told → IsOpenedFor id.now ((B.disk bench.old).reads Dev.Journal) }
    requires few { IsBetween 1 16 (length ks.now) }
    requires ascending { IsStrictlyIncreasing ks.now }
    requires inside { All (λ k. k < id.now.units) ks.now }
    ensures closes { B.told → Closes ks.now (B.disk bench.old) (B.disk bench.new) }
    ensures marked { B.told → OnOk result (All (λ k. IsMarked ((B.disk bench.new).reads Dev.Journal) (unit_mark k)) ks.now) }
    ensures settled_target { B.told → OnOk result (IsSettled (B.disk bench.new) Dev.Target) }
    ensures settled { OnOk result (IsSettled (B.disk bench.new) Dev.Journal) }
    ensures since { B.told → ClosingKeepsSince id.now ks.now (B.disk bench.old) (B.disk bench.new) }
    ensures own { B.told → KeepsOwn id.now (B.disk bench.old) (B.disk bench.new) }
    ensures still { B.told → IsOpenedFor id.now ((B.disk bench.new).reads Dev.Journal) }
    ensures cause { IfErr result (IsCause (B.meter bench.old) (B.meter bench.new)) }
    ensures bill { Costs (800 + 2 * length ks.now) (B.meter bench.old) (B.meter bench.new) }
    ensures same_names { SameNames (B.meter bench.old) (B.meter bench.new) }
{
    bench.sync(Dev::Target)?;
    record_units(bench, id, ks)?;
    Ok(())
}

/// Records a range as checked, and waits until its mark is on the journal's disk.
pub fn check_range<B: Bench>(bench: &mut B, id: &JobId, r: u64) -> Result<(), DeviceFault>
    requires attached { IsAttached (B.meter bench.old) Dev.Journal }
    requires limits { IsWithinLimits id.now }
    requires opened { B.told → IsOpenedFor id.now ((B.disk bench.old).reads Dev.Journal) }
    requires inside { r < id.now.ranges }
    ensures touches { B.told → Touches Dev.Journal (range_mark id.now r) 1 (B.disk bench.old) (B.disk bench.new) }
    ensures marked { B.told → OnOk result (IsMarked ((B.disk bench.new).reads Dev.Journal) (range_mark id.now r)) }
    ensures settled { OnOk result (IsSettled (B.disk bench.new) Dev.Journal) }
    ensures since { B.told → CheckingKeepsSince id.now r (B.disk bench.old) (B.disk bench.new) }
    ensures own { B.told → KeepsOwn id.now (B.disk bench.old) (B.disk bench.new) }
    ensures still { B.told → IsOpenedFor id.now ((B.disk bench.new).reads Dev.Journal) }
    ensures cause { IfErr result (IsCauseOn Dev.Journal (B.meter bench.old) (B.meter bench.new)) }
    ensures bill { CostsOn Dev.Journal 770 (B.meter bench.old) (B.meter bench.new) }
    ensures same_names { SameNames (B.meter bench.old) (B.meter bench.new) }
{
    record_range(bench, id, r)?;
    Ok(())
}

/// Takes back the records of `count` units of a range from number `first` on, and waits until that is on the
/// journal's disk.
pub fn clear_units<B: Bench>(
    bench: &mut B,
    id: &JobId,
    first: u64,
    count: u64,
) -> Result<(), DeviceFault>
    requires attached { IsAttached (B.meter bench.old) Dev.Journal }
    requires limits { IsWithinLimits id.now }
    requires opened { B.told → IsOpenedFor id.now ((B.disk bench.old).reads Dev.Journal) }
    requires inside { first + count ≤ id.now.units }
    ensures touches { B.told → Touches Dev.Journal (unit_mark first) count (B.disk bench.old) (B.disk bench.new) }
    ensures cleared { B.told → OnOk result (AreZero (unit_mark first) count ((B.disk bench.new).reads Dev.Journal)) }
    ensures settled { OnOk result (IsSettled (B.disk bench.new) Dev.Journal) }
    ensures since { B.told → ClearingKeepsSince id.now first count (B.disk bench.old) (B.disk bench.new) }
    ensures own { B.told → KeepsOwn id.now (B.disk bench.old) (B.disk bench.new) }
    ensures still { B.told → IsOpenedFor id.now ((B.disk bench.new).reads Dev.Journal) }
    ensures cause { IfErr result (IsCauseOn Dev.Journal (B.meter bench.old) (B.meter bench.new)) }
    ensures bill { CostsOn Dev.Journal (768 + 2 * count) (B.meter bench.old) (B.meter bench.new) }
    ensures same_names { SameNames (B.meter bench.old) (B.meter bench.new) }
{
    clear_range(bench, id, first, count)?;
    Ok(())
}
