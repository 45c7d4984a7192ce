ghost use Rattle.std.specs.Prelude.{◌≡◌, ℕ, ◌+◌, ◌*◌, ◌^◌, ◌<◌, ◌≤◌, ◌↔◌, All, IfOk, IsTrue, OnOk, OnErr, length};
ghost use Rattle.bench.specs.Disk.{Looked, StillLeaves, Touches};
ghost use Rattle.bench.specs.Meter.{CostsOn, IsAttached, SameNames};
ghost use Rattle.bench.specs.declared.Dev.{Dev};
ghost use Rattle.copy_journal.specs.Events.{AreMarked, AreZero};
ghost use Rattle.copy_journal.specs.Faults.{HasFailed};

use bench::{Bench, BenchErr, Dev};
use journal_format::RECORDED;

/// How many marks one call reads or writes.
const PIECE: u64 = 4096;

/// The bytes of one piece, all of them zero.
fn zeros() -> [u8; 4096]
    ensures { All (λ byte. byte ≡ 0) result }
{
    [0; 4096]
}

/// Writes zeros to the journal, `count` of them from an offset on.
pub(crate) fn write_zeros<B: Bench>(bench: &mut B, at: u64, count: u64) -> Result<(), BenchErr>
    requires attached { IsAttached (B.meter bench.old) Dev.Journal }
    requires inside { B.told → at + count ≤ length ((B.disk bench.old).reads Dev.Journal) }
    requires bounded { at + count < 2 ^ 64 }
    ensures touches { B.told → Touches Dev.Journal at count (B.disk bench.old) (B.disk bench.new) }
    ensures zero { B.told → OnOk result (AreZero at count ((B.disk bench.new).reads Dev.Journal)) }
    ensures bill { CostsOn Dev.Journal (2 * count + 32) (B.meter bench.old) (B.meter bench.new) }
    ensures same_names { SameNames (B.meter bench.old) (B.meter bench.new) }
    ensures failed { OnErr result (HasFailed Dev.Journal (B.meter bench.old) (B.meter bench.new)) }
{
    let zeros = zeros();
    let mut done = 0;
    while count - done > PIECE {
        bench.write_at(Dev::Journal, at + done, &zeros)?;
        done += PIECE;
    }
    bench.write_at(Dev::Journal, at + done, &zeros[..(count - done) as usize])?;
    Ok(())
}

/// Whether `count` marks of the journal from an offset on are all recorded.
pub(crate) fn all_marked<B: Bench>(bench: &mut B, at: u64, count: u64) -> Result<bool, BenchErr>
    requires attached { IsAttached (B.meter bench.old) Dev.Journal }
    requires inside { B.told → at + count ≤ length ((B.disk bench.old).reads Dev.Journal) }
    requires bounded { at + count < 2 ^ 64 }
    ensures exact { B.told → IfOk result (λ all. IsTrue all ↔ AreMarked at count ((B.disk bench.old).reads Dev.Journal)) }
    ensures looked { Looked (B.disk bench.old) (B.disk bench.new) }
    ensures stays { (each : Dev) → StillLeaves each (B.disk bench.old) (B.disk bench.new) }
    ensures bill { CostsOn Dev.Journal (2 * count + 32) (B.meter bench.old) (B.meter bench.new) }
    ensures same_names { SameNames (B.meter bench.old) (B.meter bench.new) }
    ensures failed { OnErr result (HasFailed Dev.Journal (B.meter bench.old) (B.meter bench.new)) }
{
    let mut piece = zeros();
    let mut done = 0;
    while count - done > PIECE {
        if !piece_marked(bench, at + done, &mut piece)? {
            return Ok(false);
        }
        done += PIECE;
    }
    let rest = (count - done) as usize;
    let all = piece_marked(bench, at + done, &mut piece[..rest])?;
    Ok(all)
}

/// Whether as many marks from an offset on as the piece has bytes are all recorded. The piece holds any bytes then.
fn piece_marked<B: Bench>(bench: &mut B, at: u64, piece: &mut [u8]) -> Result<bool, BenchErr>
    requires attached { IsAttached (B.meter bench.old) Dev.Journal }
    requires inside { B.told → at + length piece.old ≤ length ((B.disk bench.old).reads Dev.Journal) }
    ensures exact { B.told → IfOk result (λ all. IsTrue all ↔ AreMarked at (length piece.old) ((B.disk bench.old).reads Dev.Journal)) }
    ensures looked { Looked (B.disk bench.old) (B.disk bench.new) }
    ensures stays { (each : Dev) → StillLeaves each (B.disk bench.old) (B.disk bench.new) }
    ensures bill { CostsOn Dev.Journal 32 (B.meter bench.old) (B.meter bench.new) }
    ensures same_names { SameNames (B.meter bench.old) (B.meter bench.new) }
    ensures failed { OnErr result (HasFailed Dev.Journal (B.meter bench.old) (B.meter bench.new)) }
{
    bench.read_at(Dev::Journal, at, piece)?;
    Ok(are_recorded(piece))
}

/// Whether these marks are all recorded.
fn are_recorded(marks: &[u8]) -> bool
    ensures { IsTrue result ↔ All (λ mark. mark ≡ RECORDED) marks.now }
{
    marks.iter().all(|mark| *mark == RECORDED)
}
