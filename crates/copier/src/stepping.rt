ghost use Rattle.std.specs.Prelude.{◌≡◌, ◌≤◌, OnOk, Ok, Err, length};
ghost use Rattle.bench.specs.declared.Dev.{Dev};
ghost use Rattle.bench.specs.Meter.{IsAttached, SameNames};
ghost use Rattle.outside.specs.Counts.{NoneFell};
ghost use Rattle.copy_stages.specs.Stages.{KeepsOwn};
ghost use Rattle.copier_course.specs.declared.jobs.Need.{Need};
ghost use Rattle.copier.specs.Copiers.{Fits, IsSound, next_of};
ghost use Rattle.copier.specs.Ends.{StepEnds};
ghost use Rattle.copier.specs.Runs.{ClearsTheRange, HasStepCause, SameTarget, ShowsDone, StaysNear, StepGoesAlong, StepKeepsSince, StepKeepsWindow};
ghost use Rattle.copier.specs.Steps.{CostsFor, GoesTo, IsForNext, IsIdleNeed, IsUnitNeed, LeavesFewer, ReadsSource};

use crate::keeping::{keep_next, next_in};
use crate::putting::{put_next, refuse};
use crate::reading::read_unit;
use crate::{CopyFault, CopyJob, Need, Step};
use bench::Bench;
use copier_course::Course;
use outside::Files;

/// Does what is next. The buffer has room for a unit, and holds any bytes then.
pub(crate) fn step_next<F: Files, B: Bench>(
    files: &mut F,
    bench: &mut B,
    job: &CopyJob,
    progress: &mut Result<Course, CopyFault>,
    buf: &mut [u8],
) -> Result<Step, CopyFault>
    requires target { IsAttached (B.meter bench.old) Dev.Target }
    requires journal { IsAttached (B.meter bench.old) Dev.Journal }
    requires sound { IsSound job.now progress.old }
    requires room { job.now.id.unit ≤ length buf.old }
    requires fits { B.told → Fits job.now progress.old (B.disk bench.old) }
    ensures sound { IsSound job.now progress.new }
    ensures since { B.told → StepKeepsSince F.told (F.file files.old job.now.source) job.now progress.old (B.disk bench.old) (B.disk bench.new) }
    ensures own { B.told → KeepsOwn job.now.id (B.disk bench.old) (B.disk bench.new) }
    ensures same_target { B.told → ¬ IsUnitNeed (next_of job.now progress.old) → SameTarget (B.disk bench.old) (B.disk bench.new) }
    ensures fits { B.told → Fits job.now progress.new (B.disk bench.new) }
    ensures window { B.told → OnOk result (StepKeepsWindow F.told (F.file files.old job.now.source) job.now progress.old progress.new (B.disk bench.old) (B.disk bench.new)) }
    ensures narrow { B.told → StaysNear job.now progress.old (B.disk bench.old) (B.disk bench.new) }
    ensures along { B.told → OnOk result (StepGoesAlong F.told (F.file files.old job.now.source) job.now progress.old progress.new (B.disk bench.old) (B.disk bench.new)) }
    ensures next { IsForNext job.now progress.old result }
    ensures goes { GoesTo job.now progress.old progress.new result }
    ensures fewer { LeavesFewer job.now progress.old progress.new result }
    ensures done { B.told → ShowsDone job.now (B.disk bench.new) result }
    ensures cleared { B.told → ClearsTheRange job.now progress.old (B.disk bench.new) result }
    ensures ends { B.told → StepEnds F.told (F.file files.old job.now.source) job.now progress.old (B.disk bench.old) result }
    ensures cause { HasStepCause B.told job.now progress.old (B.disk bench.old) (F.counts files.old) (F.counts files.new) (B.meter bench.old) (B.meter bench.new) result }
    ensures source { F.told → ReadsSource (F.file files.old) job.now progress.old result }
    ensures idle { IsIdleNeed (next_of job.now progress.old) → bench.new ≡ bench.old }
    ensures unasked { ¬ IsUnitNeed (next_of job.now progress.old) → files.new ≡ files.old }
    ensures none_fell { NoneFell (F.counts files.old) (F.counts files.new) }
    ensures same_files { F.file files.new ≡ F.file files.old }
    ensures bill { CostsFor job.now (next_of job.now progress.old) result (B.meter bench.old) (B.meter bench.new) }
    ensures same_names { SameNames (B.meter bench.old) (B.meter bench.new) }
{
    match next_in(job, progress) {
        Need::Unit { k } => copy_next(files, bench, job, progress, k, buf),
        _ => keep_next(bench, job, progress, buf),
    }
}

/// Reads unit `k`, which is next, from the source and puts it.
fn copy_next<F: Files, B: Bench>(
    files: &mut F,
    bench: &mut B,
    job: &CopyJob,
    progress: &mut Result<Course, CopyFault>,
    k: u64,
    buf: &mut [u8],
) -> Result<Step, CopyFault>
    requires target { IsAttached (B.meter bench.old) Dev.Target }
    requires journal { IsAttached (B.meter bench.old) Dev.Journal }
    requires sound { IsSound job.now progress.old }
    requires next { next_of job.now progress.old ≡ Need.Unit k }
    requires room { job.now.id.unit ≤ length buf.old }
    requires fits { B.told → Fits job.now progress.old (B.disk bench.old) }
    ensures sound { IsSound job.now progress.new }
    ensures since { B.told → StepKeepsSince F.told (F.file files.old job.now.source) job.now progress.old (B.disk bench.old) (B.disk bench.new) }
    ensures own { B.told → KeepsOwn job.now.id (B.disk bench.old) (B.disk bench.new) }
    ensures fits { B.told → Fits job.now progress.new (B.disk bench.new) }
    ensures window { B.told → OnOk result (StepKeepsWindow F.told (F.file files.old job.now.source) job.now progress.old progress.new (B.disk bench.old) (B.disk bench.new)) }
    ensures narrow { B.told → StaysNear job.now progress.old (B.disk bench.old) (B.disk bench.new) }
    ensures along { B.told → OnOk result (StepGoesAlong F.told (F.file files.old job.now.source) job.now progress.old progress.new (B.disk bench.old) (B.disk bench.new)) }
    ensures next { IsForNext job.now progress.old result }
    ensures goes { GoesTo job.now progress.old progress.new result }
    ensures fewer { LeavesFewer job.now progress.old progress.new result }
    ensures done { B.told → ShowsDone job.now (B.disk bench.new) result }
    ensures cleared { B.told → ClearsTheRange job.now progress.old (B.disk bench.new) result }
    ensures ends { B.told → StepEnds F.told (F.file files.old job.now.source) job.now progress.old (B.disk bench.old) result }
    ensures cause { HasStepCause B.told job.now progress.old (B.disk bench.old) (F.counts files.old) (F.counts files.new) (B.meter bench.old) (B.meter bench.new) result }
    ensures source { F.told → ReadsSource (F.file files.old) job.now progress.old result }
    ensures none_fell { NoneFell (F.counts files.old) (F.counts files.new) }
    ensures same_files { F.file files.new ≡ F.file files.old }
    ensures bill { CostsFor job.now (next_of job.now progress.old) result (B.meter bench.old) (B.meter bench.new) }
    ensures same_names { SameNames (B.meter bench.old) (B.meter bench.new) }
{
    let span = job.units.span(k);
    let part = &mut buf[..span.len as usize];
    match read_unit(files, job.source.text(), span, part) {
        Ok(()) => put_next(bench, job, progress, k, part),
        Err(fault) => Err(refuse(progress, fault)),
    }
}
