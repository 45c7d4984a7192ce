//! What a copy's journal asks of the two devices, tried over any of them: marks in a loop, a gate that is closed, and
//! a unit that is written and marked. No command uses it.
#![tactic(auto)]

ghost use Rattle.std.specs.Prelude.{◌≡◌, ◌+◌, ◌*◌, ◌<◌, ◌≤◌, ◌∷◌, [], All, length, slice_index, OnOk};
ghost use Rattle.base_fields.specs.Fields.{written};
ghost use Rattle.bench.specs.Disk.{EachSince, IsSettled, Moves, Runs, Steps, TornAt};
ghost use Rattle.bench.specs.Meter.{Costs, CostsOn, IsAttached, SameNames};
ghost use Rattle.bench_trial.specs.Pairs.{ClosedOrBefore, IsMarkOf, Put};

use bench::{Bench, BenchErr, Dev};

/// What a mark is.
const MARK: u8 = 0x44;

/// Where the byte of the gate stands.
const GATE: u64 = 8;

/// Where the first mark stands.
const FIRST: u64 = 80;

/// Marks the units of these numbers in the journal, and waits until the marks are on its disk.
pub fn mark<B: Bench>(bench: &mut B, units: &[u32]) -> Result<(), BenchErr>
    requires attached { IsAttached (B.meter bench.old) Dev.Journal }
    requires inside { B.told → All (λ unit. 80 + unit < length ((B.disk bench.old).reads Dev.Journal)) units.now }
    ensures torn { B.told → Steps Dev.Journal (TornAt (IsMarkOf units.now)) (B.disk bench.old) (B.disk bench.new) }
    ensures marked { B.told → OnOk result (All (λ unit. slice_index ((B.disk bench.new).reads Dev.Journal) (80 + unit) ≡ MARK) units.now) }
    ensures settled { OnOk result (IsSettled (B.disk bench.new) Dev.Journal) }
    ensures bill { CostsOn Dev.Journal (33 * length units.now + 32) (B.meter bench.old) (B.meter bench.new) }
    ensures same_names { SameNames (B.meter bench.old) (B.meter bench.new) }
{
    for unit in units {
        bench.write_at(Dev::Journal, FIRST + *unit as u64, &[MARK])?;
    }
    bench.sync(Dev::Journal)?;
    Ok(())
}

/// Settles the journal, and closes its gate.
pub fn close_gate<B: Bench>(bench: &mut B) -> Result<(), BenchErr>
    requires attached { IsAttached (B.meter bench.old) Dev.Journal }
    requires inside { B.told → 9 ≤ length ((B.disk bench.old).reads Dev.Journal) }
    ensures moves { B.told → Moves (ClosedOrBefore (B.disk bench.old)) (B.disk bench.old) (B.disk bench.new) }
    ensures closed { B.told → OnOk result ((B.disk bench.new).reads Dev.Journal ≡ written ((B.disk bench.old).reads Dev.Journal) 8 (0 ∷ [])) }
    ensures settled { OnOk result (IsSettled (B.disk bench.new) Dev.Journal) }
    ensures bill { CostsOn Dev.Journal 97 (B.meter bench.old) (B.meter bench.new) }
    ensures same_names { SameNames (B.meter bench.old) (B.meter bench.new) }
{
    bench.sync(Dev::Journal)?;
    bench.write_at(Dev::Journal, GATE, &[0])?;
    bench.sync(Dev::Journal)?;
    Ok(())
}

/// Writes a unit to the target and settles it, and then does so with the mark at a place of the journal.
pub fn put<B: Bench>(bench: &mut B, at: u64, bytes: &[u8], place: u64) -> Result<(), BenchErr>
    requires target { IsAttached (B.meter bench.old) Dev.Target }
    requires journal { IsAttached (B.meter bench.old) Dev.Journal }
    requires inside { B.told → at + length bytes.now ≤ length ((B.disk bench.old).reads Dev.Target) }
    requires mark_inside { B.told → place < length ((B.disk bench.old).reads Dev.Journal) }
    ensures pairs { B.told → Runs (B.disk bench.old) (B.disk bench.new) (Put (B.disk bench.old) at bytes.now place) }
    ensures bill { Costs (4 * 32 + length bytes.now + 1) (B.meter bench.old) (B.meter bench.new) }
    ensures same_names { SameNames (B.meter bench.old) (B.meter bench.new) }
{
    bench.write_at(Dev::Target, at, bytes)?;
    bench.sync(Dev::Target)?;
    bench.write_at(Dev::Journal, place, &[MARK])?;
    bench.sync(Dev::Journal)?;
    Ok(())
}

/// The same, for whoever asks which pairs a stop since the call may have left.
pub fn put_since<B: Bench>(bench: &mut B, at: u64, bytes: &[u8], place: u64) -> Result<(), BenchErr>
    requires target { IsAttached (B.meter bench.old) Dev.Target }
    requires journal { IsAttached (B.meter bench.old) Dev.Journal }
    requires inside { B.told → at + length bytes.now ≤ length ((B.disk bench.old).reads Dev.Target) }
    requires mark_inside { B.told → place < length ((B.disk bench.old).reads Dev.Journal) }
    ensures { B.told → EachSince (B.disk bench.old).moment (B.disk bench.new) (Put (B.disk bench.old) at bytes.now place) }
{
    put(bench, at, bytes, place)
}
