//! The run of a job on its two devices.
ghost use Rattle.std.specs.Prelude.{◌≡◌, ◌+◌, ◌<◌, ◌≤◌, IfErr, OnOk, length};
ghost use Rattle.bench.specs.declared.Dev.{Dev};
ghost use Rattle.bench.specs.Disk.{Looked, StillLeaves};
ghost use Rattle.bench.specs.Meter.{Costs, HasNoOther};
ghost use Rattle.copier.specs.Faults.{NoneIsLeft};
ghost use Rattle.copier_course.specs.Courses.{IsCopyJob};
ghost use Rattle.copy_journal.specs.Faults.{HasFailed};
ghost use Rattle.copy_opening.specs.declared.opening.Mode.{Mode};
ghost use Rattle.copy_run.specs.Faults.{IsRunFault};
ghost use Rattle.copy_run.specs.Runs.{OpensFor, RunHasOutcome, RunIsDone, RunIsNarrow, RunIsTallied, RunKeepsMarks, RunKeepsSince, TellsFile};
ghost use Rattle.copy_stages.specs.Stages.{KeepsOwn};
ghost use Rattle.journal_format.specs.Journals.{IsHeld, IsWindow};
ghost use Rattle.outside.specs.Counts.{NoneFell};
ghost use Rattle.region_pool.specs.Buffers.{free_of};
ghost use Rattle.copy_job.specs.Copies.{IsBefore, IsUnwritten, OfRun};
ghost use Rattle.copy_job.specs.Devices.{AreNamed, most_work};
ghost use Rattle.copy_job.specs.Faults.{IsShown};
ghost use Rattle.copy_job.specs.Stages.{AreAttached, IsLate};

use crate::{CopyJobFault, CopyRequest};
use bench::{Bench, BenchErr, Dev};
use copier::CopyJob;
use copy_run::{Tally, copy_all};
use outside::Files;
use region_pool::Pool;
use std::alloc::Global;

/// Attaches the target and the journal under their words. Answers which of them isn't attached.
fn attach_both<B: Bench>(bench: &mut B, request: &CopyRequest) -> Result<(), Dev>
    requires target { HasNoOther (B.meter bench.old) Dev.Target request.now.target }
    requires journal { HasNoOther (B.meter bench.old) Dev.Journal request.now.journal }
    ensures attached { OnOk result (AreAttached request.now (B.meter bench.new)) }
    ensures looked { Looked (B.disk bench.old) (B.disk bench.new) }
    ensures stays { (each : Dev) → StillLeaves each (B.disk bench.old) (B.disk bench.new) }
    ensures named { AreNamed request.now (B.meter bench.old) (B.meter bench.new) }
    ensures cause { IfErr result (λ dev. HasFailed dev (B.meter bench.old) (B.meter bench.new)) }
    ensures bill { Costs (64 + length request.now.target + length request.now.journal) (B.meter bench.old) (B.meter bench.new) }
{
    match bench.attach(Dev::Target, request.target.text()) {
        Ok(()) => {}
        Err(BenchErr) => return Err(Dev::Target),
    }
    match bench.attach(Dev::Journal, request.journal.text()) {
        Ok(()) => Ok(()),
        Err(BenchErr) => Err(Dev::Journal),
    }
}

/// Attaches both devices, and runs the job on them.
pub fn copy_under<F: Files, B: Bench>(
    alloc: Global,
    files: &mut F,
    bench: &mut B,
    job: &CopyJob,
    pool: &mut Pool,
    request: &CopyRequest,
) -> Result<Tally, CopyJobFault>
    requires target { HasNoOther (B.meter bench.old) Dev.Target request.now.target }
    requires journal { HasNoOther (B.meter bench.old) Dev.Journal request.now.journal }
    requires free { 0 < free_of pool.old }
    requires room { job.now.id.unit ≤ pool.old.size }
    requires job { IsCopyJob job.now }
    requires window { job.now.mode ≡ Mode.Fresh → IsWindow job.now.window }
    ensures since { B.told → RunKeepsSince F.told (F.file files.old job.now.source) job.now (B.disk bench.old) (B.disk bench.new) }
    ensures narrow { B.told → RunIsNarrow F.told (F.file files.old job.now.source) job.now (B.disk bench.old) (B.disk bench.new) }
    ensures keeps { B.told → RunKeepsMarks F.told (F.file files.old job.now.source) job.now (B.disk bench.old) (B.disk bench.new) }
    ensures own { B.told → KeepsOwn job.now.id (B.disk bench.old) (B.disk bench.new) }
    ensures opens { B.told → OfRun (OpensFor job.now ((B.disk bench.old).reads Dev.Target) ((B.disk bench.old).reads Dev.Journal)) result }
    ensures done { B.told → OfRun (RunIsDone job.now (B.disk bench.new)) result }
    ensures tally { B.told → OfRun (RunIsTallied job.now (B.disk bench.old)) result }
    ensures outcome { B.told → OfRun (RunHasOutcome F.told (F.file files.old job.now.source) job.now (B.disk bench.old)) result }
    ensures cleared { B.told → OfRun (λ answer. IfErr answer (NoneIsLeft job.now (B.disk bench.new))) result }
    ensures read { F.told → OfRun (TellsFile (F.file files.old job.now.source)) result }
    ensures caused { OfRun (λ answer. IfErr answer (IsRunFault B.told job.now (B.disk bench.new) (F.counts files.old) (F.counts files.new) (B.meter bench.old) (B.meter bench.new))) result }
    ensures unwritten { B.told → IfErr result (λ fault. IsUnwritten fault → Looked (B.disk bench.old) (B.disk bench.new)) }
    ensures held { B.told → job.now.mode ≡ Mode.Fresh → IsHeld ((B.disk bench.old).reads Dev.Journal) → Looked (B.disk bench.old) (B.disk bench.new) }
    ensures before { IfErr result (λ fault. IsBefore fault → Looked (B.disk bench.old) (B.disk bench.new)) }
    ensures stays { IfErr result (λ fault. IsBefore fault → (each : Dev) → StillLeaves each (B.disk bench.old) (B.disk bench.new)) }
    ensures late { IfErr result IsLate }
    ensures cause { IfErr result (IsShown (F.counts files.old) (F.counts files.new) (B.meter bench.old) (B.meter bench.new)) }
    ensures none_fell { NoneFell (F.counts files.old) (F.counts files.new) }
    ensures same_files { F.file files.new ≡ F.file files.old }
    ensures attached { AreNamed request.now (B.meter bench.old) (B.meter bench.new) }
    ensures bill { Costs (most_work request.now job.now) (B.meter bench.old) (B.meter bench.new) }
{
    match attach_both(bench, request) {
        Ok(()) => {}
        Err(dev) => return Err(CopyJobFault::DeviceFault { dev }),
    }
    match copy_all(alloc, files, bench, job, pool) {
        Ok(tally) => Ok(tally),
        Err(fault) => Err(CopyJobFault::Copy(fault)),
    }
}
