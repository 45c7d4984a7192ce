ghost use Rattle.std.specs.Prelude.{◌≡◌, ◌+◌, ◌^◌, ◌<◌, ◌≤◌, IfErr};
ghost use Rattle.bench.specs.declared.Dev.{Dev};
ghost use Rattle.bench.specs.Disk.{Looked};
ghost use Rattle.bench.specs.Meter.{Costs, IsAttached, SameNames};
ghost use Rattle.outside.specs.Counts.{NoneFell};
ghost use Rattle.region_pool.specs.Buffers.{free_of};
ghost use Rattle.journal_format.specs.Journals.{IsHeld, IsWindow};
ghost use Rattle.copy_opening.specs.declared.opening.Mode.{Mode};
ghost use Rattle.copy_stages.specs.Stages.{KeepsOwn};
ghost use Rattle.copier.specs.Beginnings.{BeginsIn};
ghost use Rattle.copier.specs.Copiers.{Fits, IsSound};
ghost use Rattle.copier.specs.Faults.{IsUnwritten, NoneIsLeft};
ghost use Rattle.copier.specs.Pools.{HasBuffer, UsesSlot};
ghost use Rattle.copier_course.specs.Courses.{IsCopyJob};
ghost use Rattle.copy_run.specs.Faults.{IsRunFault, most_work};
ghost use Rattle.copy_run.specs.Runs.{OpensFor, RunHasOutcome, RunIsDone, RunIsNarrow, RunIsTallied, RunKeepsMarks, RunKeepsSince, TellsFile};
ghost use Rattle.copy_run.specs.Steps.{Adds, IsLastFault, StepsAreTallied, StepsHaveOutcome, StepsStayNear, most_steps};

use bench::Bench;
use copier::{Copier, CopyFault, CopyJob, Step};
use copy_tally::{runs_are_tallied, units_are_mapped};
use outside::Files;
use region_pool::Pool;
use std::alloc::Global;

/// The numbers of a copy that is done: all its units, those that this run wrote, and those that it kept, which an earlier
/// run had recorded in ranges that it hadn't checked.
#[derive(Clone, Copy, Debug, PartialEq, Eq)]
pub struct Tally {
    pub units: u64,
    pub written: u64,
    pub kept: u64,
}

/// Copies what is left of a job: opens the copy, writes or keeps each unit, checks each range, and gives the pool's buffer
/// back. It may be stopped before, within or behind any call on a device. All memory is taken before the first write.
///
/// Refuses as the opening of a copier and its steps do.
pub fn copy_all<F: Files, B: Bench>(
    alloc: Global,
    files: &mut F,
    bench: &mut B,
    job: &CopyJob,
    pool: &mut Pool,
) -> Result<Tally, CopyFault>
    requires target { IsAttached (B.meter bench.old) Dev.Target }
    requires journal { IsAttached (B.meter bench.old) Dev.Journal }
    requires free { 0 < free_of pool.old }
    requires room { job.now.id.unit ≤ pool.old.size }
    requires job { IsCopyJob job.now }
    requires window { job.now.mode ≡ Mode.Fresh → IsWindow job.now.window }

    // Each pair of images since the start, whatever is answered.
    ensures since { B.told → RunKeepsSince F.told (F.file files.old job.now.source) job.now (B.disk bench.old) (B.disk bench.new) }
    ensures narrow { B.told → RunIsNarrow F.told (F.file files.old job.now.source) job.now (B.disk bench.old) (B.disk bench.new) }
    ensures keeps { B.told → RunKeepsMarks F.told (F.file files.old job.now.source) job.now (B.disk bench.old) (B.disk bench.new) }
    ensures own { B.told → KeepsOwn job.now.id (B.disk bench.old) (B.disk bench.new) }

    // What the answer tells of the devices, and of the outcome.
    ensures opens { B.told → OpensFor job.now ((B.disk bench.old).reads Dev.Target) ((B.disk bench.old).reads Dev.Journal) result }
    ensures done { B.told → RunIsDone job.now (B.disk bench.new) result }
    ensures tally { B.told → RunIsTallied job.now (B.disk bench.old) result }
    ensures outcome { B.told → RunHasOutcome F.told (F.file files.old job.now.source) job.now (B.disk bench.old) result }
    ensures cleared { B.told → IfErr result (NoneIsLeft job.now (B.disk bench.new)) }
    ensures unwritten { B.told → IfErr result (λ fault. IsUnwritten fault → Looked (B.disk bench.old) (B.disk bench.new)) }
    ensures held { B.told → job.now.mode ≡ Mode.Fresh → IsHeld ((B.disk bench.old).reads Dev.Journal) → Looked (B.disk bench.old) (B.disk bench.new) }
    ensures read { F.told → TellsFile (F.file files.old job.now.source) result }

    // Told or not.
    ensures cause { IfErr result (IsRunFault B.told job.now (B.disk bench.new) (F.counts files.old) (F.counts files.new) (B.meter bench.old) (B.meter bench.new)) }
    ensures none_fell { NoneFell (F.counts files.old) (F.counts files.new) }
    ensures same_files { F.file files.new ≡ F.file files.old }
    ensures bill { Costs (most_work job.now) (B.meter bench.old) (B.meter bench.new) }
    ensures same_names { SameNames (B.meter bench.old) (B.meter bench.new) }
    ensures free { free_of pool.new ≡ free_of pool.old }
{
    runs_are_tallied();
    units_are_mapped();
    let mut copier = Copier::open(alloc, bench, job, pool)?;
    let answer = take_steps(files, bench, pool, &mut copier, job.id.units);
    copier.close(pool);
    answer
}

/// Takes the steps of a copier that was just opened, to the end or to its refusal.
fn take_steps<F: Files, B: Bench>(
    files: &mut F,
    bench: &mut B,
    pool: &mut Pool,
    copier: &mut Copier,
    units: u64,
) -> Result<Tally, CopyFault>
    requires target { IsAttached (B.meter bench.old) Dev.Target }
    requires journal { IsAttached (B.meter bench.old) Dev.Journal }
    requires units { units ≡ copier.old.job.id.units }
    requires sound { IsSound copier.old.job copier.old.progress }
    requires begins { BeginsIn copier.old.job copier.old.progress }
    requires fits { B.told → Fits copier.old.job copier.old.progress (B.disk bench.old) }
    requires buffer { HasBuffer copier.old pool.old }
    ensures since { B.told → RunKeepsSince F.told (F.file files.old copier.old.job.source) copier.old.job (B.disk bench.old) (B.disk bench.new) }
    ensures own { B.told → KeepsOwn copier.old.job.id (B.disk bench.old) (B.disk bench.new) }
    ensures near { B.told → StepsStayNear F.told (F.file files.old copier.old.job.source) copier.old.job copier.old.progress (B.disk bench.old) (B.disk bench.new) }
    ensures done { B.told → RunIsDone copier.old.job (B.disk bench.new) result }
    ensures tally { B.told → StepsAreTallied copier.old.job copier.old.progress (B.disk bench.old) result }
    ensures outcome { B.told → StepsHaveOutcome F.told (F.file files.old copier.old.job.source) copier.old.job copier.old.progress (B.disk bench.old) result }
    ensures cleared { B.told → IfErr result (NoneIsLeft copier.old.job (B.disk bench.new)) }
    ensures read { F.told → TellsFile (F.file files.old copier.old.job.source) result }
    ensures cause { IfErr result (IsLastFault B.told copier.old.job (B.disk bench.new) (F.counts files.old) (F.counts files.new) (B.meter bench.old) (B.meter bench.new)) }
    ensures none_fell { NoneFell (F.counts files.old) (F.counts files.new) }
    ensures same_files { F.file files.new ≡ F.file files.old }
    ensures bill { Costs (most_steps copier.old.job) (B.meter bench.old) (B.meter bench.new) }
    ensures same_names { SameNames (B.meter bench.old) (B.meter bench.new) }
    ensures lease { copier.new.lease ≡ copier.old.lease }
    ensures pool { UsesSlot copier.old.lease.slot pool.old pool.new }
{
    runs_are_tallied();
    let mut tally = Tally {
        units,
        written: 0,
        kept: 0,
    };
    'steps: loop {
        match copier.step(files, bench, pool)? {
            Step::Done => return Ok(tally),
            step => tally.add(step),
        }
    }
}

impl Tally {
    /// Counts what a step did.
    fn add(&mut self, step: Step)
        requires { self.old.written + self.old.kept < 2 ^ 63 }
        ensures { Adds step self.old self.new }
    {
        match step {
            Step::Unit { k: _ } => self.written += 1,
            Step::Kept { k: _ } => self.kept += 1,
            Step::Range { r: _ } | Step::Done => {}
        }
    }
}
