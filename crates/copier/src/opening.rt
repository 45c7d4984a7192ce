ghost use Rattle.std.specs.Prelude.{◌≡◌, ◌+◌, ◌*◌, ◌≤◌, IfErr, IfOk, OnOk, Ok, length, vec_len};
ghost use Rattle.bench.specs.declared.Dev.{Dev};
ghost use Rattle.bench.specs.Disk.{Looked};
ghost use Rattle.bench.specs.Meter.{Costs, IsAttached, SameNames};
ghost use Rattle.journal_format.specs.Journals.{IsHeld, IsWindow};
ghost use Rattle.copy_opening.specs.Openings.{KeepsOwn, OpeningIsNarrow, OpeningKeepsMarks, OpeningKeepsSince, Opens};
ghost use Rattle.copy_opening.specs.declared.opening.Mode.{Mode};
ghost use Rattle.copier_course.specs.Courses.{IsCopyJob, IsCourse};
ghost use Rattle.copier_moves.specs.Fitting.{IsFitting};
ghost use Rattle.copier.specs.Faults.{IsOpenFault, IsUnwritten};
ghost use Rattle.copier.specs.Beginnings.{Begins, StartsAlong};

use crate::{CopyFault, CopyJob};
use base_fields::{List, NoMemory};
use bench::Bench;
use copier_course::Course;
use copy_opening::open_copy;
use std::alloc::Global;

/// Opens the copy on its two devices, and answers where its copier begins. All memory is taken before the first write.
pub(crate) fn open_course<B: Bench>(
    alloc: Global,
    bench: &mut B,
    job: &CopyJob,
) -> Result<Course, CopyFault>
    requires target { IsAttached (B.meter bench.old) Dev.Target }
    requires journal { IsAttached (B.meter bench.old) Dev.Journal }
    requires job { IsCopyJob job.now }
    requires window { job.now.mode ≡ Mode.Fresh → IsWindow job.now.window }
    ensures opens { B.told → Opens job.now.id (B.disk bench.old) (B.disk bench.new) }
    ensures own { B.told → KeepsOwn job.now.id (B.disk bench.old) (B.disk bench.new) }
    ensures narrow { B.told → OpeningIsNarrow job.now.id (B.disk bench.old) (B.disk bench.new) }
    ensures keeps { B.told → OpeningKeepsMarks job.now.id (B.disk bench.old) (B.disk bench.new) }
    ensures since { B.told → OpeningKeepsSince job.now.id (B.disk bench.old) (B.disk bench.new) }
    ensures again { B.told → job.now.mode ≡ Mode.Again → Looked (B.disk bench.old) (B.disk bench.new) }
    ensures kept { B.told → IsHeld ((B.disk bench.old).reads Dev.Journal) → Looked (B.disk bench.old) (B.disk bench.new) }
    ensures unwritten { B.told → IfErr result (λ fault. IsUnwritten fault → Looked (B.disk bench.old) (B.disk bench.new)) }
    ensures course { IfOk result (IsCourse job.now) }
    ensures begins { IfOk result (Begins job.now) }
    ensures room { B.told → OnOk result (job.now.map.size ≤ length ((B.disk bench.old).reads Dev.Target)) }
    ensures new { B.told → job.now.mode ≡ Mode.Fresh → OnOk result (¬ IsHeld ((B.disk bench.old).reads Dev.Journal)) }
    ensures fits { B.told → IfOk result (λ course. IsFitting job.now course (B.disk bench.new)) }
    ensures along { B.told → IfOk result (λ course. StartsAlong job.now course (B.disk bench.old) (B.disk bench.new)) }
    ensures cause { IfErr result (IsOpenFault B.told job.now ((B.disk bench.old).reads Dev.Target) ((B.disk bench.old).reads Dev.Journal) (B.meter bench.old) (B.meter bench.new)) }
    ensures bill { Costs (4096 + 4 * (80 + job.now.id.units + job.now.id.ranges)) (B.meter bench.old) (B.meter bench.new) }
    ensures same_names { SameNames (B.meter bench.old) (B.meter bench.new) }
{
    let units = zeros(alloc, job.id.units as usize)?;
    let ranges = zeros(alloc, job.id.ranges as usize)?;
    let marks = open_copy(alloc, bench, &job.map, &job.id, job.mode, job.window)?;
    let units = filled(units, marks.units.bytes());
    let ranges = filled(ranges, marks.ranges.bytes());
    let window = within_limits(marks.window);
    Ok(Course::begin(job, units, ranges, window))
}

/// So many zeros.
fn zeros(alloc: Global, count: usize) -> Result<Vec<u8>, NoMemory>
    ensures { IfOk result (λ zeros. vec_len zeros ≡ count) }
{
    Ok(vec![in alloc; 0; count]?)
}

/// These marks in memory that was taken for as many.
fn filled(mut memory: Vec<u8>, marks: &[u8]) -> List<u8>
    ensures size { length result ≡ vec_len memory }
    ensures same { length marks.now ≡ vec_len memory → result ≡ marks.now }
{
    if marks.len() == memory.len() {
        memory.as_mut_slice().copy_from_slice(marks);
    }
    List::from_vec(memory)
}

/// The window itself, where it is one: of a bench that isn't told nothing says so.
fn within_limits(window: u32) -> u32
    ensures window { IsWindow result }
    ensures same { IsWindow window → result ≡ window }
{
    window.clamp(1, 16)
}
