//! A journal is forgotten.
ghost use Rattle.std.specs.Prelude.{◌+◌, IfErr, IfOk, IsErr, OnOk, length};
ghost use Rattle.std.specs.Prelude.{◌≡◌, List, Option, ℕ};
ghost use Rattle.bench.specs.declared.Dev.{Dev};
ghost use Rattle.bench.specs.Disk.{Keeps, Looked};
ghost use Rattle.bench.specs.Meter.{CostsOn, HasNoOther};
ghost use Rattle.block_map.specs.declared.maps.BlockMap.{BlockMap};
ghost use Rattle.copy_journal.specs.Faults.{HasFailed};
ghost use Rattle.copy_stages.specs.Stages.{KeepsOwn};
ghost use Rattle.copy_states.specs.Standing.{Since};
ghost use Rattle.journal_format.specs.Journals.{IsHeld};
ghost use Rattle.journal_format.specs.declared.jobs.JobId.{JobId};
ghost use Rattle.copy_job.specs.Devices.{AttachedOr, IsForgotten, IsNamedAsBefore, WasHeld};

use bench::{Bench, BenchErr, Dev};
use copy_journal::{JournalFault, forget};

/// Attaches the journal under that name, and forgets the copy that it holds: its gate is closed, and nothing else of it
/// changes. Answers whether it was held. Takes no memory. It is refused only where a call on the journal failed.
pub fn forget_journal<B: Bench>(bench: &mut B, journal: &str) -> Result<bool, BenchErr>
    requires { HasNoOther (B.meter bench.old) Dev.Journal journal.now }
    ensures exact { B.told → IfOk result (WasHeld (B.disk bench.old)) }
    ensures forgotten { B.told → OnOk result (IsForgotten (B.disk bench.old) (B.disk bench.new)) }
    ensures since { B.told → (id : JobId) (m : BlockMap) (source : Option (List ℕ)) (before : List ℕ) → Keeps (Since id m source before) (B.disk bench.old) (B.disk bench.new) }
    ensures own { B.told → (id : JobId) → KeepsOwn id (B.disk bench.old) (B.disk bench.new) }
    ensures unwritten { B.told → ¬ IsHeld ((B.disk bench.old).reads Dev.Journal) → Looked (B.disk bench.old) (B.disk bench.new) }
    ensures same_target { B.told → (B.disk bench.new).reads Dev.Target ≡ (B.disk bench.old).reads Dev.Target }
    ensures cause { IsErr result → HasFailed Dev.Journal (B.meter bench.old) (B.meter bench.new) }
    ensures attached { AttachedOr Dev.Journal journal.now (B.meter bench.old) (B.meter bench.new) }
    ensures other { IsNamedAsBefore Dev.Target (B.meter bench.old) (B.meter bench.new) }
    ensures bill { CostsOn Dev.Journal (2048 + length journal.now) (B.meter bench.old) (B.meter bench.new) }
{
    bench.attach(Dev::Journal, journal)?;
    match forget(bench) {
        Ok(held) => Ok(held),
        Err(_) => Err(BenchErr),
    }
}
