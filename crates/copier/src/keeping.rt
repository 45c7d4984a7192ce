ghost use Rattle.std.specs.Prelude.{◌≡◌, ◌≤◌, IsErr, OnOk, Ok, Err, length};
ghost use Rattle.bench.specs.declared.Dev.{Dev};
ghost use Rattle.bench.specs.Meter.{IsAttached, SameNames};
ghost use Rattle.copy_stages.specs.Stages.{KeepsOwn};
ghost use Rattle.copier_moves.specs.Moves.{MovingKeepsSince};
ghost use Rattle.copier_course.specs.declared.jobs.Need.{Need};
ghost use Rattle.copier.specs.Copiers.{Fits, IsSound, next_of};
ghost use Rattle.copier.specs.Ends.{KeepEnds};
ghost use Rattle.copier.specs.Runs.{ClearsTheRange, GoesAlong, HasKeepCause, KeepsWindow, SameTarget, ShowsDone, StaysNear};
ghost use Rattle.copier.specs.Steps.{CostsFor, GoesTo, IsForNext, IsIdleNeed, IsUnitNeed, LeavesFewer};

use crate::putting::refuse;
use crate::{CopyFault, CopyJob, Need, Step};
use bench::Bench;
use copier_course::Course;
use copier_moves::{end_range, keep_unit};

/// What is to be done next.
pub(crate) fn next_in(job: &CopyJob, progress: &Result<Course, CopyFault>) -> Need
    requires sound { IsSound job.now progress.now }
    ensures { result ≡ next_of job.now progress.now }
{
    match progress {
        Ok(course) => course.need(job),
        Err(_) => Need::Failed,
    }
}

/// Does what is next, where no unit is to be written. The buffer has room for a unit, and holds any bytes then.
pub(crate) fn keep_next<B: Bench>(
    bench: &mut B,
    job: &CopyJob,
    progress: &mut Result<Course, CopyFault>,
    buf: &mut [u8],
) -> Result<Step, CopyFault>
    requires target { IsAttached (B.meter bench.old) Dev.Target }
    requires journal { IsAttached (B.meter bench.old) Dev.Journal }
    requires sound { IsSound job.now progress.old }
    requires next { ¬ IsUnitNeed (next_of job.now progress.old) }
    requires room { job.now.id.unit ≤ length buf.old }
    requires fits { B.told → Fits job.now progress.old (B.disk bench.old) }
    ensures sound { IsSound job.now progress.new }
    ensures since { B.told → MovingKeepsSince job.now (B.disk bench.old) (B.disk bench.new) }
    ensures own { B.told → KeepsOwn job.now.id (B.disk bench.old) (B.disk bench.new) }
    ensures same_target { B.told → SameTarget (B.disk bench.old) (B.disk bench.new) }
    ensures fits { B.told → Fits job.now progress.new (B.disk bench.new) }
    ensures window { B.told → OnOk result (KeepsWindow job.now progress.old progress.new (B.disk bench.old) (B.disk bench.new)) }
    ensures narrow { B.told → StaysNear job.now progress.old (B.disk bench.old) (B.disk bench.new) }
    ensures along { B.told → OnOk result (GoesAlong job.now progress.old progress.new (B.disk bench.old) (B.disk bench.new)) }
    ensures next { IsForNext job.now progress.old result }
    ensures goes { GoesTo job.now progress.old progress.new result }
    ensures fewer { LeavesFewer job.now progress.old progress.new result }
    ensures done { B.told → ShowsDone job.now (B.disk bench.new) result }
    ensures cleared { B.told → ClearsTheRange job.now progress.old (B.disk bench.new) result }
    ensures ends { B.told → KeepEnds job.now progress.old (B.disk bench.old) result }
    ensures cause { HasKeepCause B.told job.now progress.old (B.disk bench.old) (B.meter bench.old) (B.meter bench.new) result }
    ensures idle { IsIdleNeed (next_of job.now progress.old) → bench.new ≡ bench.old }
    ensures bill { CostsFor job.now (next_of job.now progress.old) result (B.meter bench.old) (B.meter bench.new) }
    ensures same_names { SameNames (B.meter bench.old) (B.meter bench.new) }
{
    match next_in(job, progress) {
        Need::Unit { k: _ } => unreachable!(),
        Need::Kept { k } => pass_next(bench, job, progress, k, buf),
        Need::Range { r } => end_next(bench, job, progress, r),
        Need::Done => Ok(Step::Done),
        Need::Failed => Err(kept_in(progress)),
    }
}

/// The refusal that is kept.
fn kept_in(progress: &Result<Course, CopyFault>) -> CopyFault
    requires { IsErr progress.now }
    ensures { progress.now ≡ Err result }
{
    match progress {
        Ok(_) => unreachable!(),
        Err(fault) => *fault,
    }
}

/// Passes unit `k`, which is next and is recorded.
fn pass_next<B: Bench>(
    bench: &mut B,
    job: &CopyJob,
    progress: &mut Result<Course, CopyFault>,
    k: u64,
    buf: &mut [u8],
) -> Result<Step, CopyFault>
    requires target { IsAttached (B.meter bench.old) Dev.Target }
    requires journal { IsAttached (B.meter bench.old) Dev.Journal }
    requires sound { IsSound job.now progress.old }
    requires next { next_of job.now progress.old ≡ Need.Kept k }
    requires room { job.now.id.unit ≤ length buf.old }
    requires fits { B.told → Fits job.now progress.old (B.disk bench.old) }
    ensures sound { IsSound job.now progress.new }
    ensures since { B.told → MovingKeepsSince job.now (B.disk bench.old) (B.disk bench.new) }
    ensures own { B.told → KeepsOwn job.now.id (B.disk bench.old) (B.disk bench.new) }
    ensures same_target { B.told → SameTarget (B.disk bench.old) (B.disk bench.new) }
    ensures fits { B.told → Fits job.now progress.new (B.disk bench.new) }
    ensures window { B.told → OnOk result (KeepsWindow job.now progress.old progress.new (B.disk bench.old) (B.disk bench.new)) }
    ensures narrow { B.told → StaysNear job.now progress.old (B.disk bench.old) (B.disk bench.new) }
    ensures along { B.told → OnOk result (GoesAlong job.now progress.old progress.new (B.disk bench.old) (B.disk bench.new)) }
    ensures next { IsForNext job.now progress.old result }
    ensures goes { GoesTo job.now progress.old progress.new result }
    ensures fewer { LeavesFewer job.now progress.old progress.new result }
    ensures done { B.told → ShowsDone job.now (B.disk bench.new) result }
    ensures cleared { B.told → ClearsTheRange job.now progress.old (B.disk bench.new) result }
    ensures ends { B.told → KeepEnds job.now progress.old (B.disk bench.old) result }
    ensures cause { HasKeepCause B.told job.now progress.old (B.disk bench.old) (B.meter bench.old) (B.meter bench.new) result }
    ensures bill { CostsFor job.now (next_of job.now progress.old) result (B.meter bench.old) (B.meter bench.new) }
    ensures same_names { SameNames (B.meter bench.old) (B.meter bench.new) }
{
    let Ok(course) = progress else { unreachable!() };
    match keep_unit(bench, job, course, buf) {
        Ok(()) => Ok(Step::Kept { k }),
        Err(fault) => Err(refuse(progress, CopyFault::from(fault))),
    }
}

/// Ends range `r`, which is next.
fn end_next<B: Bench>(
    bench: &mut B,
    job: &CopyJob,
    progress: &mut Result<Course, CopyFault>,
    r: u64,
) -> Result<Step, CopyFault>
    requires target { IsAttached (B.meter bench.old) Dev.Target }
    requires journal { IsAttached (B.meter bench.old) Dev.Journal }
    requires sound { IsSound job.now progress.old }
    requires next { next_of job.now progress.old ≡ Need.Range r }
    requires fits { B.told → Fits job.now progress.old (B.disk bench.old) }
    ensures sound { IsSound job.now progress.new }
    ensures since { B.told → MovingKeepsSince job.now (B.disk bench.old) (B.disk bench.new) }
    ensures own { B.told → KeepsOwn job.now.id (B.disk bench.old) (B.disk bench.new) }
    ensures same_target { B.told → SameTarget (B.disk bench.old) (B.disk bench.new) }
    ensures fits { B.told → Fits job.now progress.new (B.disk bench.new) }
    ensures window { B.told → OnOk result (KeepsWindow job.now progress.old progress.new (B.disk bench.old) (B.disk bench.new)) }
    ensures narrow { B.told → StaysNear job.now progress.old (B.disk bench.old) (B.disk bench.new) }
    ensures along { B.told → OnOk result (GoesAlong job.now progress.old progress.new (B.disk bench.old) (B.disk bench.new)) }
    ensures next { IsForNext job.now progress.old result }
    ensures goes { GoesTo job.now progress.old progress.new result }
    ensures fewer { LeavesFewer job.now progress.old progress.new result }
    ensures done { B.told → ShowsDone job.now (B.disk bench.new) result }
    ensures cleared { B.told → ClearsTheRange job.now progress.old (B.disk bench.new) result }
    ensures ends { B.told → KeepEnds job.now progress.old (B.disk bench.old) result }
    ensures cause { HasKeepCause B.told job.now progress.old (B.disk bench.old) (B.meter bench.old) (B.meter bench.new) result }
    ensures bill { CostsFor job.now (next_of job.now progress.old) result (B.meter bench.old) (B.meter bench.new) }
    ensures same_names { SameNames (B.meter bench.old) (B.meter bench.new) }
{
    let Ok(course) = progress else { unreachable!() };
    match end_range(bench, job, course) {
        Ok(()) => Ok(Step::Range { r }),
        Err(fault) => Err(refuse(progress, CopyFault::from(fault))),
    }
}
