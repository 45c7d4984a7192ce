ghost use Rattle.std.specs.Prelude.{◌≡◌, ℕ, ◌+◌, IfErr, OnOk, Ok, Err, length};
ghost use Rattle.base_fields.specs.declared.spans.Span.{Span};
ghost use Rattle.bench.specs.declared.Dev.{Dev};
ghost use Rattle.bench.specs.Meter.{Costs, IsAttached, SameNames};
ghost use Rattle.copy_states.specs.Jobs.{IsUnitAt};
ghost use Rattle.copy_stages.specs.Stages.{KeepsOwn};
ghost use Rattle.copier_course.specs.declared.jobs.Need.{Need};
ghost use Rattle.copier.specs.Copiers.{Fits, IsSound, next_of};
ghost use Rattle.copier.specs.Faults.{IsPutFault};
ghost use Rattle.copier.specs.Runs.{PutGoesAlong, PutKeepsSince, PutKeepsWindow, StaysNear};
ghost use Rattle.copier.specs.Steps.{GoesTo, IsForUnit, LeavesFewer};

use crate::{CopyFault, CopyJob, Step};
use bench::Bench;
use copier_course::Course;
use copier_moves::put_unit;

/// Keeps a refusal in place of the course, and gives it.
pub(crate) fn refuse(progress: &mut Result<Course, CopyFault>, fault: CopyFault) -> CopyFault
    ensures kept { progress.new ≡ Err fault }
    ensures given { result ≡ fault }
{
    *progress = Err(fault);
    fault
}

/// Puts unit `k`, which is the next to be written, with these bytes.
pub(crate) fn put_next<B: Bench>(
    bench: &mut B,
    job: &CopyJob,
    progress: &mut Result<Course, CopyFault>,
    k: u64,
    bytes: &[u8],
) -> Result<Step, CopyFault>
    requires target { IsAttached (B.meter bench.old) Dev.Target }
    requires journal { IsAttached (B.meter bench.old) Dev.Journal }
    requires sound { IsSound job.now progress.old }
    requires next { next_of job.now progress.old ≡ Need.Unit k }
    requires whole { (u : Span) → IsUnitAt job.now.id job.now.map k u → length bytes.now ≡ u.len }
    requires fits { B.told → Fits job.now progress.old (B.disk bench.old) }
    ensures sound { IsSound job.now progress.new }
    ensures since { B.told → PutKeepsSince job.now progress.old k bytes.now (B.disk bench.old) (B.disk bench.new) }
    ensures own { B.told → KeepsOwn job.now.id (B.disk bench.old) (B.disk bench.new) }
    ensures fits { B.told → Fits job.now progress.new (B.disk bench.new) }
    ensures window { B.told → OnOk result (PutKeepsWindow job.now progress.old progress.new k bytes.now (B.disk bench.old) (B.disk bench.new)) }
    ensures narrow { B.told → StaysNear job.now progress.old (B.disk bench.old) (B.disk bench.new) }
    ensures along { B.told → OnOk result (PutGoesAlong job.now progress.old progress.new k bytes.now (B.disk bench.old) (B.disk bench.new)) }
    ensures unit { IsForUnit k result }
    ensures goes { GoesTo job.now progress.old progress.new result }
    ensures fewer { LeavesFewer job.now progress.old progress.new result }
    ensures cause { IfErr result (IsPutFault (B.meter bench.old) (B.meter bench.new)) }
    ensures bill { Costs (1024 + length bytes.now) (B.meter bench.old) (B.meter bench.new) }
    ensures same_names { SameNames (B.meter bench.old) (B.meter bench.new) }
{
    let Ok(course) = progress else { unreachable!() };
    match put_unit(bench, job, course, bytes) {
        Ok(()) => Ok(Step::Unit { k }),
        Err(fault) => Err(refuse(progress, CopyFault::from(fault))),
    }
}
