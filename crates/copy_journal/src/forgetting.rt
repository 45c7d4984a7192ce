ghost use Rattle.std.specs.Prelude.{◌≡◌, ◌↔◌, IfErr, IfOk, IsTrue, OnOk};
ghost use Rattle.bench.specs.Disk.{IsSettled, Looked, Moves, Touches};
ghost use Rattle.bench.specs.Meter.{CostsOn, IsAttached, SameNames};
ghost use Rattle.journal_format.specs.Journals.{IsHeld};
ghost use Rattle.copy_journal.specs.Events.{EachImage, IsForgetting};
ghost use Rattle.copy_journal.specs.Faults.{IsDeviceFault};

use crate::JournalFault;
use crate::looking::look;
use bench::{Bench, Dev};
use journal_format::GATE;

/// Closes the gate of a journal that is held, and waits until that is on its disk. Answers whether it was held.
pub fn forget<B: Bench>(bench: &mut B) -> Result<bool, JournalFault>
    requires { IsAttached (B.meter bench.old) Dev.Journal }
    ensures exact { B.told → IfOk result (λ was. IsTrue was ↔ IsHeld ((B.disk bench.old).reads Dev.Journal)) }
    ensures moves { B.told → Moves (IsForgetting (B.disk bench.old)) (B.disk bench.old) (B.disk bench.new) }
    ensures touches { B.told → Touches Dev.Journal 8 1 (B.disk bench.old) (B.disk bench.new) }
    ensures unwritten { B.told → ¬ IsHeld ((B.disk bench.old).reads Dev.Journal) → Looked (B.disk bench.old) (B.disk bench.new) }
    ensures settled { OnOk result (IsSettled (B.disk bench.new) Dev.Journal) }
    ensures closed { B.told → OnOk result (EachImage (B.disk bench.new) (λ image. ¬ IsHeld image)) }
    ensures cause { IfErr result (IsDeviceFault (B.meter bench.old) (B.meter bench.new)) }
    ensures bill { CostsOn Dev.Journal 1024 (B.meter bench.old) (B.meter bench.new) }
    ensures same_names { SameNames (B.meter bench.old) (B.meter bench.new) }
{
    bench.sync(Dev::Journal)?;
    let Some(_) = look(bench)? else {
        return Ok(false);
    };
    bench.write_at(Dev::Journal, GATE, &[0])?;
    bench.sync(Dev::Journal)?;
    Ok(true)
}
