ghost use Rattle.std.specs.Prelude.{◌≡◌, ℕ, ◌+◌, ◌*◌, ◌<◌, ◌≤◌, IfErr, IfOk, OnOk, Ok, Err, length};
ghost use Rattle.base_fields.specs.declared.spans.Span.{Span};
ghost use Rattle.bench.specs.declared.Dev.{Dev};
ghost use Rattle.bench.specs.Disk.{Looked};
ghost use Rattle.bench.specs.Meter.{Costs, IsAttached, SameNames};
ghost use Rattle.outside.specs.Counts.{NoneFell};
ghost use Rattle.region_pool.specs.Buffers.{IsLeaseOf, free_of, given};
ghost use Rattle.journal_format.specs.Journals.{IsHeld, IsWindow};
ghost use Rattle.copy_states.specs.Jobs.{IsUnitAt};
ghost use Rattle.copy_stages.specs.Stages.{KeepsOwn};
ghost use Rattle.copy_opening.specs.Openings.{OpeningIsNarrow, OpeningKeepsMarks, OpeningKeepsSince, Opens};
ghost use Rattle.copy_opening.specs.Openings.{KeepsOwn as OpeningKeepsOwn};
ghost use Rattle.copy_opening.specs.declared.opening.Mode.{Mode};
ghost use Rattle.copier_course.specs.Courses.{IsCopyJob};
ghost use Rattle.copier_course.specs.declared.jobs.Need.{Need};
ghost use Rattle.copier_moves.specs.Moves.{MovingKeepsSince};
ghost use Rattle.copier.specs.Copiers.{Fits, IsSound, next_of};
ghost use Rattle.copier.specs.Ends.{KeepEnds, StepEnds};
ghost use Rattle.copier.specs.Faults.{IsOpenFault, IsPutFault, IsUnwritten};
ghost use Rattle.copier.specs.Beginnings.{HasBegun, OpensAlong, OpensFitting};
ghost use Rattle.copier.specs.Pools.{HasBuffer, OpensPool, UsesSlot};
ghost use Rattle.copier.specs.Runs.{ClearsTheRange, GoesAlong, HasKeepCause, HasStepCause, KeepsWindow, PutGoesAlong, PutKeepsSince, PutKeepsWindow, SameTarget, ShowsDone, StaysNear, StepGoesAlong, StepKeepsSince, StepKeepsWindow};
ghost use Rattle.copier.specs.Steps.{CostsFor, GoesTo, IsForNext, IsForUnit, IsIdleNeed, IsUnitNeed, LeavesFewer, ReadsSource};

use crate::keeping::{keep_next, next_in};
use crate::opening::open_course;
use crate::putting::put_next;
use crate::stepping::step_next;
use crate::{CopyFault, CopyJob, Need, Step};
use bench::Bench;
use copier_course::Course;
use outside::Files;
use region_pool::{Lease, Pool};
use std::alloc::Global;
use std::marker::Model;

/// A copy that was opened on its two devices, with a buffer of a pool. It can't be dropped: [`Copier::close`] gives
/// the buffer back. Contracts see its job, how far it has come or what it has refused, and its lease.
pub struct Copier<'a> {
    job: &'a CopyJob,
    progress: Result<Course, CopyFault>,
    lease: Lease,
}

impl<'a> Model for Copier<'a> {
    ghost use Rattle.copier.specs.Copiers.{Copying, IsSound};

    ghost Value = { Copying };

    ghost view = { λ c. record { job = c.job.now; progress = c.progress; lease = c.lease } };

    ghost invariant = { λ c. IsSound c.job.now c.progress };
}

impl<'a> Copier<'a> {
    /// Opens a copy: waits until the target is on its disk, and opens the journal, in the mode `Fresh` with the job's
    /// window. All memory of the copy is taken before the first write. After a refusal the buffer was given back.
    ///
    /// Refuses with `TargetTooSmall`, `DeviceFault` or `NoMemory`, in the mode `Fresh` with `JournalHeld`, and in the
    /// mode `Again` with `NoJournal` or `JournalForeign`.
    pub fn open<B: Bench>(
        alloc: Global,
        bench: &mut B,
        job: &'a CopyJob,
        pool: &mut Pool,
    ) -> Result<Copier<'a>, CopyFault>
        requires target { IsAttached (B.meter bench.old) Dev.Target }
        requires journal { IsAttached (B.meter bench.old) Dev.Journal }
        requires free { 0 < free_of pool.old }
        requires room { job.now.id.unit ≤ pool.old.size }
        requires job { IsCopyJob job.now }
        requires window { job.now.mode ≡ Mode.Fresh → IsWindow job.now.window }
        ensures opens { B.told → Opens job.now.id (B.disk bench.old) (B.disk bench.new) }
        ensures own { B.told → OpeningKeepsOwn job.now.id (B.disk bench.old) (B.disk bench.new) }
        ensures narrow { B.told → OpeningIsNarrow job.now.id (B.disk bench.old) (B.disk bench.new) }
        ensures keeps { B.told → OpeningKeepsMarks job.now.id (B.disk bench.old) (B.disk bench.new) }
        ensures since { B.told → OpeningKeepsSince job.now.id (B.disk bench.old) (B.disk bench.new) }
        ensures again { B.told → job.now.mode ≡ Mode.Again → Looked (B.disk bench.old) (B.disk bench.new) }
        ensures kept { B.told → IsHeld ((B.disk bench.old).reads Dev.Journal) → Looked (B.disk bench.old) (B.disk bench.new) }
        ensures unwritten { B.told → IfErr result (λ fault. IsUnwritten fault → Looked (B.disk bench.old) (B.disk bench.new)) }
        ensures sound { IfOk result (λ copier. IsSound copier.job copier.progress) }
        ensures begins { IfOk result (HasBegun job.now) }
        ensures room { B.told → OnOk result (job.now.map.size ≤ length ((B.disk bench.old).reads Dev.Target)) }
        ensures new { B.told → job.now.mode ≡ Mode.Fresh → OnOk result (¬ IsHeld ((B.disk bench.old).reads Dev.Journal)) }
        ensures fits { B.told → IfOk result (OpensFitting (B.disk bench.new)) }
        ensures along { B.told → IfOk result (OpensAlong (B.disk bench.old) (B.disk bench.new)) }
        ensures cause { IfErr result (IsOpenFault B.told job.now ((B.disk bench.old).reads Dev.Target) ((B.disk bench.old).reads Dev.Journal) (B.meter bench.old) (B.meter bench.new)) }
        ensures pool { OpensPool pool.old pool.new result }
        ensures bill { Costs (4096 + 4 * (80 + job.now.id.units + job.now.id.ranges)) (B.meter bench.old) (B.meter bench.new) }
        ensures same_names { SameNames (B.meter bench.old) (B.meter bench.new) }
    {
        let Some(lease) = pool.lease() else {
            unreachable!()
        };
        match open_course(alloc, bench, job) {
            Ok(course) => Ok(Copier {
                job,
                progress: Ok(course),
                lease,
            }),
            Err(fault) => {
                pool.give(lease);
                Err(fault)
            }
        }
    }

    /// Does what is next: reads a unit from the source and writes it, passes one that is recorded, or ends a range.
    /// After a refusal it answers that same refusal from then on and calls nothing. Takes no memory.
    ///
    /// Refuses with `Missing`, `SourceShort` or `FileFault` of the source, `DeviceFault` or `RangeDiffers`.
    pub fn step<F: Files, B: Bench>(
        &mut self,
        files: &mut F,
        bench: &mut B,
        pool: &mut Pool,
    ) -> Result<Step, CopyFault>
        requires target { IsAttached (B.meter bench.old) Dev.Target }
        requires journal { IsAttached (B.meter bench.old) Dev.Journal }
        requires fits { B.told → Fits self.old.job self.old.progress (B.disk bench.old) }
        requires buffer { HasBuffer self.old pool.old }
        ensures job { self.new.job ≡ self.old.job }
        ensures lease { self.new.lease ≡ self.old.lease }
        ensures sound { IsSound self.new.job self.new.progress }
        ensures since { B.told → StepKeepsSince F.told (F.file files.old self.old.job.source) self.old.job self.old.progress (B.disk bench.old) (B.disk bench.new) }
        ensures own { B.told → KeepsOwn self.old.job.id (B.disk bench.old) (B.disk bench.new) }
        ensures same_target { B.told → ¬ IsUnitNeed (next_of self.old.job self.old.progress) → SameTarget (B.disk bench.old) (B.disk bench.new) }
        ensures fits { B.told → Fits self.new.job self.new.progress (B.disk bench.new) }
        ensures window { B.told → OnOk result (StepKeepsWindow F.told (F.file files.old self.old.job.source) self.old.job self.old.progress self.new.progress (B.disk bench.old) (B.disk bench.new)) }
        ensures narrow { B.told → StaysNear self.old.job self.old.progress (B.disk bench.old) (B.disk bench.new) }
        ensures along { B.told → OnOk result (StepGoesAlong F.told (F.file files.old self.old.job.source) self.old.job self.old.progress self.new.progress (B.disk bench.old) (B.disk bench.new)) }
        ensures next { IsForNext self.old.job self.old.progress result }
        ensures goes { GoesTo self.old.job self.old.progress self.new.progress result }
        ensures fewer { LeavesFewer self.old.job self.old.progress self.new.progress result }
        ensures done { B.told → ShowsDone self.old.job (B.disk bench.new) result }
        ensures cleared { B.told → ClearsTheRange self.old.job self.old.progress (B.disk bench.new) result }
        ensures ends { B.told → StepEnds F.told (F.file files.old self.old.job.source) self.old.job self.old.progress (B.disk bench.old) result }
        ensures cause { HasStepCause B.told self.old.job self.old.progress (B.disk bench.old) (F.counts files.old) (F.counts files.new) (B.meter bench.old) (B.meter bench.new) result }
        ensures source { F.told → ReadsSource (F.file files.old) self.old.job self.old.progress result }
        ensures idle { IsIdleNeed (next_of self.old.job self.old.progress) → bench.new ≡ bench.old }
        ensures unasked { ¬ IsUnitNeed (next_of self.old.job self.old.progress) → files.new ≡ files.old }
        ensures none_fell { NoneFell (F.counts files.old) (F.counts files.new) }
        ensures same_files { F.file files.new ≡ F.file files.old }
        ensures pool { UsesSlot self.old.lease.slot pool.old pool.new }
        ensures bill { CostsFor self.old.job (next_of self.old.job self.old.progress) result (B.meter bench.old) (B.meter bench.new) }
        ensures same_names { SameNames (B.meter bench.old) (B.meter bench.new) }
    {
        let buf = pool.bytes_mut(&self.lease);
        step_next(files, bench, self.job, &mut self.progress, buf)
    }

    /// What is to be done next.
    pub fn need(&self) -> Need
        ensures { result ≡ next_of self.now.job self.now.progress }
    {
        next_in(self.job, &self.progress)
    }

    /// Writes unit `k`, which is next, with these bytes, of which there are as many as it has. Takes no memory. Refuses
    /// with `DeviceFault` alone.
    pub fn put<B: Bench>(&mut self, bench: &mut B, k: u64, bytes: &[u8]) -> Result<Step, CopyFault>
        requires target { IsAttached (B.meter bench.old) Dev.Target }
        requires journal { IsAttached (B.meter bench.old) Dev.Journal }
        requires next { next_of self.old.job self.old.progress ≡ Need.Unit k }
        requires whole { (u : Span) → IsUnitAt self.old.job.id self.old.job.map k u → length bytes.now ≡ u.len }
        requires fits { B.told → Fits self.old.job self.old.progress (B.disk bench.old) }
        ensures job { self.new.job ≡ self.old.job }
        ensures lease { self.new.lease ≡ self.old.lease }
        ensures since { B.told → PutKeepsSince self.old.job self.old.progress k bytes.now (B.disk bench.old) (B.disk bench.new) }
        ensures own { B.told → KeepsOwn self.old.job.id (B.disk bench.old) (B.disk bench.new) }
        ensures fits { B.told → Fits self.new.job self.new.progress (B.disk bench.new) }
        ensures window { B.told → OnOk result (PutKeepsWindow self.old.job self.old.progress self.new.progress k bytes.now (B.disk bench.old) (B.disk bench.new)) }
        ensures narrow { B.told → StaysNear self.old.job self.old.progress (B.disk bench.old) (B.disk bench.new) }
        ensures along { B.told → OnOk result (PutGoesAlong self.old.job self.old.progress self.new.progress k bytes.now (B.disk bench.old) (B.disk bench.new)) }
        ensures unit { IsForUnit k result }
        ensures goes { GoesTo self.old.job self.old.progress self.new.progress result }
        ensures fewer { LeavesFewer self.old.job self.old.progress self.new.progress result }
        ensures cause { IfErr result (IsPutFault (B.meter bench.old) (B.meter bench.new)) }
        ensures bill { Costs (1024 + length bytes.now) (B.meter bench.old) (B.meter bench.new) }
        ensures same_names { SameNames (B.meter bench.old) (B.meter bench.new) }
    {
        put_next(bench, self.job, &mut self.progress, k, bytes)
    }

    /// Does what is next, where no unit is to be written: passes one that is recorded, ends a range, or answers the kept
    /// refusal again. Takes no memory. Refuses with `DeviceFault` or `RangeDiffers`.
    pub fn keep<B: Bench>(&mut self, bench: &mut B, pool: &mut Pool) -> Result<Step, CopyFault>
        requires target { IsAttached (B.meter bench.old) Dev.Target }
        requires journal { IsAttached (B.meter bench.old) Dev.Journal }
        requires next { ¬ IsUnitNeed (next_of self.old.job self.old.progress) }
        requires fits { B.told → Fits self.old.job self.old.progress (B.disk bench.old) }
        requires buffer { HasBuffer self.old pool.old }
        ensures job { self.new.job ≡ self.old.job }
        ensures lease { self.new.lease ≡ self.old.lease }
        ensures since { B.told → MovingKeepsSince self.old.job (B.disk bench.old) (B.disk bench.new) }
        ensures own { B.told → KeepsOwn self.old.job.id (B.disk bench.old) (B.disk bench.new) }
        ensures same_target { B.told → SameTarget (B.disk bench.old) (B.disk bench.new) }
        ensures fits { B.told → Fits self.new.job self.new.progress (B.disk bench.new) }
        ensures window { B.told → OnOk result (KeepsWindow self.old.job self.old.progress self.new.progress (B.disk bench.old) (B.disk bench.new)) }
        ensures narrow { B.told → StaysNear self.old.job self.old.progress (B.disk bench.old) (B.disk bench.new) }
        ensures along { B.told → OnOk result (GoesAlong self.old.job self.old.progress self.new.progress (B.disk bench.old) (B.disk bench.new)) }
        ensures next { IsForNext self.old.job self.old.progress result }
        ensures goes { GoesTo self.old.job self.old.progress self.new.progress result }
        ensures fewer { LeavesFewer self.old.job self.old.progress self.new.progress result }
        ensures done { B.told → ShowsDone self.old.job (B.disk bench.new) result }
        ensures cleared { B.told → ClearsTheRange self.old.job self.old.progress (B.disk bench.new) result }
        ensures ends { B.told → KeepEnds self.old.job self.old.progress (B.disk bench.old) result }
        ensures cause { HasKeepCause B.told self.old.job self.old.progress (B.disk bench.old) (B.meter bench.old) (B.meter bench.new) result }
        ensures idle { IsIdleNeed (next_of self.old.job self.old.progress) → bench.new ≡ bench.old }
        ensures pool { UsesSlot self.old.lease.slot pool.old pool.new }
        ensures bill { CostsFor self.old.job (next_of self.old.job self.old.progress) result (B.meter bench.old) (B.meter bench.new) }
        ensures same_names { SameNames (B.meter bench.old) (B.meter bench.new) }
    {
        let buf = pool.bytes_mut(&self.lease);
        keep_next(bench, self.job, &mut self.progress, buf)
    }

    /// Gives the buffer back.
    pub fn close(self, pool: &mut Pool)
        requires { IsLeaseOf self.lease pool.old }
        ensures { pool.new ≡ given pool.old self.entry.lease.slot }
    {
        let Copier {
            job: _,
            progress: _,
            lease,
        } = self;
        pool.give(lease);
    }
}
