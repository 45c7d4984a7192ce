//! A copy, by the job that the files say.
ghost use Rattle.std.specs.Prelude.{◌≡◌, IfErr, IfOk};
ghost use Rattle.base_fields.specs.Numbers.{IsPowerBetween};
ghost use Rattle.bench.specs.declared.Dev.{Dev};
ghost use Rattle.bench.specs.Disk.{Looked, StillLeaves};
ghost use Rattle.bench.specs.Meter.{Costs, HasNoOther};
ghost use Rattle.copier.specs.Faults.{NoneIsLeft};
ghost use Rattle.copy_opening.specs.declared.opening.Mode.{Mode};
ghost use Rattle.copy_run.specs.Faults.{IsRunFault};
ghost use Rattle.copy_run.specs.Runs.{OpensFor, RunHasOutcome, RunIsDone, RunIsNarrow, RunIsTallied, RunKeepsMarks, RunKeepsSince, TellsFile};
ghost use Rattle.copy_stages.specs.Stages.{KeepsOwn};
ghost use Rattle.journal_format.specs.Journals.{IsHeld, IsWindow};
ghost use Rattle.outside.specs.Counts.{NoneFell};
ghost use Rattle.copy_job.specs.Copies.{Answers, IsBefore, IsUnwritten, OfRun, Untouched};
ghost use Rattle.copy_job.specs.Devices.{AreNamed, IsBounded, work_said};
ghost use Rattle.copy_job.specs.Faults.{IsShown};
ghost use Rattle.copy_job.specs.Said.{copying_said};

use crate::jobs::job_of_request;
use crate::running::copy_under;
use crate::{CopyJobFault, CopyRequest};
use bench::Bench;
use copy_run::Tally;
use outside::Files;
use region_pool::Pool;
use std::alloc::Global;

/// Copies what is left of the job that the files say: the source's bytes, by the map of another file, to the target,
/// beside the journal. The devices are attached under their words once the map is read and its units are known, and the
/// memory for one buffer of a unit is taken. It may be stopped at any call on a device, and gone on with.
pub fn copy_target<F: Files, B: Bench>(
    alloc: Global,
    files: &mut F,
    bench: &mut B,
    request: &CopyRequest,
) -> Result<Tally, CopyJobFault>
    requires target { HasNoOther (B.meter bench.old) Dev.Target request.now.target }
    requires journal { HasNoOther (B.meter bench.old) Dev.Journal request.now.journal }
    requires unit { IsPowerBetween 65536 4194304 request.now.unit }
    requires window { request.now.mode ≡ Mode.Fresh → IsWindow request.now.window }

    // Over told files: the job that is said is run, or the first reason why there is none is answered.
    ensures said { F.told → Answers (copying_said (F.file files.old) request.now) result }

    // Over a told bench, too: what a run of that job keeps of each pair of images since the start, whatever is answered.
    ensures since { F.told → B.told → IfOk (copying_said (F.file files.old) request.now) (λ job. RunKeepsSince F.told (F.file files.old job.source) job (B.disk bench.old) (B.disk bench.new)) }
    ensures narrow { F.told → B.told → IfOk (copying_said (F.file files.old) request.now) (λ job. RunIsNarrow F.told (F.file files.old job.source) job (B.disk bench.old) (B.disk bench.new)) }
    ensures keeps { F.told → B.told → IfOk (copying_said (F.file files.old) request.now) (λ job. RunKeepsMarks F.told (F.file files.old job.source) job (B.disk bench.old) (B.disk bench.new)) }
    ensures own { F.told → B.told → IfOk (copying_said (F.file files.old) request.now) (λ job. KeepsOwn job.id (B.disk bench.old) (B.disk bench.new)) }

    // What the answer tells of the devices, and of the outcome.
    ensures opens { F.told → B.told → IfOk (copying_said (F.file files.old) request.now) (λ job. OfRun (OpensFor job ((B.disk bench.old).reads Dev.Target) ((B.disk bench.old).reads Dev.Journal)) result) }
    ensures done { F.told → B.told → IfOk (copying_said (F.file files.old) request.now) (λ job. OfRun (RunIsDone job (B.disk bench.new)) result) }
    ensures tally { F.told → B.told → IfOk (copying_said (F.file files.old) request.now) (λ job. OfRun (RunIsTallied job (B.disk bench.old)) result) }
    ensures outcome { F.told → B.told → IfOk (copying_said (F.file files.old) request.now) (λ job. OfRun (RunHasOutcome F.told (F.file files.old job.source) job (B.disk bench.old)) result) }
    ensures cleared { F.told → B.told → IfOk (copying_said (F.file files.old) request.now) (λ job. OfRun (λ answer. IfErr answer (NoneIsLeft job (B.disk bench.new))) result) }
    ensures read { F.told → IfOk (copying_said (F.file files.old) request.now) (λ job. OfRun (TellsFile (F.file files.old job.source)) result) }
    ensures caused { F.told → IfOk (copying_said (F.file files.old) request.now) (λ job. OfRun (λ answer. IfErr answer (IsRunFault B.told job (B.disk bench.new) (F.counts files.old) (F.counts files.new) (B.meter bench.old) (B.meter bench.new))) result) }

    // What is left as it was, whatever the files tell.
    ensures unwritten { B.told → IfErr result (λ fault. IsUnwritten fault → Looked (B.disk bench.old) (B.disk bench.new)) }
    ensures held { B.told → request.now.mode ≡ Mode.Fresh → IsHeld ((B.disk bench.old).reads Dev.Journal) → Looked (B.disk bench.old) (B.disk bench.new) }
    ensures before { IfErr result (λ fault. IsBefore fault → Looked (B.disk bench.old) (B.disk bench.new)) }
    ensures stays { IfErr result (λ fault. IsBefore fault → (each : Dev) → StillLeaves each (B.disk bench.old) (B.disk bench.new)) }
    ensures untouched { Untouched bench.old bench.new result }

    // Told or not.
    ensures cause { IfErr result (IsShown (F.counts files.old) (F.counts files.new) (B.meter bench.old) (B.meter bench.new)) }
    ensures none_fell { NoneFell (F.counts files.old) (F.counts files.new) }
    ensures same_files { F.file files.new ≡ F.file files.old }
    ensures attached { AreNamed request.now (B.meter bench.old) (B.meter bench.new) }
    ensures bill { F.told → Costs (work_said request.now (copying_said (F.file files.old) request.now)) (B.meter bench.old) (B.meter bench.new) }
    ensures bounded { IsBounded request.now (B.meter bench.old) (B.meter bench.new) }
{
    let job = match job_of_request(alloc, files, request) {
        Ok(job) => job,
        Err(fault) => return Err(fault),
    };
    let Ok(mut pool) = Pool::new(alloc, 0, 1, request.unit) else {
        return Err(CopyJobFault::NoMemory);
    };
    copy_under(alloc, files, bench, &job, &mut pool, request)
}
