ghost use Rattle.std.specs.Prelude.{◌≡◌, ℕ, ◌+◌, ◌*◌, ◌<◌, ◌≤◌, IfErr, OnErr, OnOk, length};
ghost use Rattle.base_fields.specs.declared.spans.Span.{Span};
ghost use Rattle.bench.specs.declared.Dev.{Dev};
ghost use Rattle.bench.specs.Disk.{Looked};
ghost use Rattle.bench.specs.Meter.{Costs, CostsOn, IsAttached, SameNames};
ghost use Rattle.block_map.specs.Maps.{part_of};
ghost use Rattle.block_map.specs.declared.maps.Range.{Range};
ghost use Rattle.journal_format.specs.Journals.{IsMarked};
ghost use Rattle.copy_journal.specs.Faults.{HasFailed};
ghost use Rattle.copy_states.specs.Jobs.{IsRangeAt};
ghost use Rattle.copy_stages.specs.Faults.{IsCauseOn};
ghost use Rattle.copy_stages.specs.Stages.{KeepsOwn};
ghost use Rattle.copier_course.specs.Courses.{Adds, Checks, IsAtFirst, IsBehind, IsCopyJob, IsCourse, IsInside};
ghost use Rattle.copier_moves.specs.Fitting.{IsFitting};
ghost use Rattle.copier_moves.specs.Moves.{Differs, IsEndFault, IsKept, MovingIsAlong, MovingIsNear, MovingKeepsSince, NoneIsLeft, units_in_range};

use crate::EndFault;
use base_fields::Span;
use bench::{Bench, BenchErr, Dev};
use copier_course::{CopyJob, Course};
use copy_stages::{DeviceFault, check_range, clear_units};
use sha2::{Digest, Sha256};

/// Passes the present unit, which is recorded. Where its range has a digest, it is read from the target into the
/// buffer and hashed. Nothing is written.
pub fn keep_unit<B: Bench>(
    bench: &mut B,
    job: &CopyJob,
    course: &mut Course,
    buf: &mut [u8],
) -> Result<(), DeviceFault>
    requires target { IsAttached (B.meter bench.old) Dev.Target }
    requires job { IsCopyJob job.now }
    requires course { IsCourse job.now course.old }
    requires inside { IsInside job.now course.old }
    requires marked { IsMarked course.old.units course.old.unit }
    requires room { job.now.id.unit ≤ length buf.old }
    requires fits { B.told → IsFitting job.now course.old (B.disk bench.old) }
    ensures looked { Looked (B.disk bench.old) (B.disk bench.new) }
    ensures fits { B.told → OnOk result (IsFitting job.now course.new (B.disk bench.new)) }
    ensures narrow { B.told → MovingIsNear job.now course.old (B.disk bench.old) (B.disk bench.new) }
    ensures along { B.told → OnOk result (MovingIsAlong job.now course.old course.new (B.disk bench.old) (B.disk bench.new)) }
    ensures course { OnOk result (IsCourse job.now course.new) }
    ensures kept { OnOk result (IsKept course.old course.new) }
    ensures cause { IfErr result (IsCauseOn Dev.Target (B.meter bench.old) (B.meter bench.new)) }
    ensures bill { CostsOn Dev.Target 32 (B.meter bench.old) (B.meter bench.new) }
    ensures same_names { SameNames (B.meter bench.old) (B.meter bench.new) }
{
    let Some(_) = wanted(job, course.range) else {
        course.unit += 1;
        return Ok(());
    };
    let span = job.units.span(course.unit);
    hash_unit(bench, span, &mut buf[..span.len as usize], &mut course.hash)?;
    course.unit += 1;
    Ok(())
}

/// The digest that the map has of range `r`.
fn wanted(job: &CopyJob, r: u64) -> Option<[u8; 32]>
    requires { r < length job.now.map.ranges }
    ensures { (range : Range) → IsRangeAt job.now.map r range → range.digest ≡ result }
{
    job.map.ranges.as_slice()[r as usize].digest
}

/// Reads a span of the target, and hashes it behind what the hasher has.
fn hash_unit<B: Bench>(
    bench: &mut B,
    span: Span,
    part: &mut [u8],
    hasher: &mut Sha256,
) -> Result<(), BenchErr>
    requires attached { IsAttached (B.meter bench.old) Dev.Target }
    requires whole { length part.old ≡ span.len }
    requires inside { B.told → span.at + span.len ≤ length ((B.disk bench.old).reads Dev.Target) }
    ensures added { B.told → OnOk result (Adds (part_of span ((B.disk bench.old).reads Dev.Target)) hasher.old hasher.new) }
    ensures looked { Looked (B.disk bench.old) (B.disk bench.new) }
    ensures bill { CostsOn Dev.Target 32 (B.meter bench.old) (B.meter bench.new) }
    ensures same_names { SameNames (B.meter bench.old) (B.meter bench.new) }
    ensures failed { OnErr result (HasFailed Dev.Target (B.meter bench.old) (B.meter bench.new)) }
{
    bench.read_at(Dev::Target, span.at, part)?;
    hasher.update(&*part);
    Ok(())
}

/// Ends the present range, each unit of which is passed: where it has a digest and the target's bytes have another,
/// all records of its units are taken back and it refuses; else the range is recorded. After a fault the course is of
/// no more use.
pub fn end_range<B: Bench>(
    bench: &mut B,
    job: &CopyJob,
    course: &mut Course,
) -> Result<(), EndFault>
    requires journal { IsAttached (B.meter bench.old) Dev.Journal }
    requires job { IsCopyJob job.now }
    requires course { IsCourse job.now course.old }
    requires behind { IsBehind job.now course.old }
    requires fits { B.told → IsFitting job.now course.old (B.disk bench.old) }
    ensures since { B.told → MovingKeepsSince job.now (B.disk bench.old) (B.disk bench.new) }
    ensures own { B.told → KeepsOwn job.now.id (B.disk bench.old) (B.disk bench.new) }
    ensures same_target { B.told → (B.disk bench.new).reads Dev.Target ≡ (B.disk bench.old).reads Dev.Target }
    ensures fits { B.told → OnOk result (IsFitting job.now course.new (B.disk bench.new)) }
    ensures narrow { B.told → MovingIsNear job.now course.old (B.disk bench.old) (B.disk bench.new) }
    ensures along { B.told → OnOk result (MovingIsAlong job.now course.old course.new (B.disk bench.old) (B.disk bench.new)) }
    ensures course { OnOk result (IsCourse job.now course.new) }
    ensures checked { OnOk result (Checks course.old course.new) }
    ensures first { OnOk result (IsAtFirst job.now course.new) }
    ensures none_left { B.told → IfErr result (NoneIsLeft job.now (B.disk bench.new)) }
    ensures cause { IfErr result (IsEndFault B.told job.now course.old (B.disk bench.old) (B.meter bench.old) (B.meter bench.new)) }
    ensures bill { Costs (1024 + 2 * units_in_range job.now course.old.range) (B.meter bench.old) (B.meter bench.new) }
    ensures cheap { OnOk result (Costs 1024 (B.meter bench.old) (B.meter bench.new)) }
    ensures same_names { SameNames (B.meter bench.old) (B.meter bench.new) }
{
    let range = course.range;
    if let Some(both) = difference(job, course) {
        let want = both.0;
        let got = both.1;
        let first = job.units.first_of(range);
        clear_units(bench, &job.id, first, job.units.count_of(range))?;
        return Err(EndFault::RangeDiffers { range, want, got });
    }
    check_range(bench, &job.id, range)?;
    course.check(job);
    Ok(())
}

/// The present range's digest and what is hashed of it, where they differ.
fn difference(job: &CopyJob, course: &mut Course) -> Option<([u8; 32], [u8; 32])>
    requires { course.old.range < length job.now.map.ranges }
    ensures same { course.new ≡ record course.old { hash = course.new.hash } }
    ensures exact { Differs job.now course.old result }
{
    let want = wanted(job, course.range)?;
    let got = course.difference(want)?;
    Some((want, got))
}
