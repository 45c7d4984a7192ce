ghost use Rattle.std.specs.Prelude.{◌≡◌, ℕ, ◌+◌, ◌≤◌, IfErr, OnOk, length};
ghost use Rattle.base_fields.specs.declared.spans.Span.{Span};
ghost use Rattle.bench.specs.declared.Dev.{Dev};
ghost use Rattle.bench.specs.Meter.{Costs, IsAttached, SameNames};
ghost use Rattle.journal_format.specs.Journals.{IsMarked};
ghost use Rattle.copy_states.specs.Jobs.{IsUnitAt};
ghost use Rattle.copy_stages.specs.Faults.{IsCause};
ghost use Rattle.copy_stages.specs.Stages.{KeepsOwn};
ghost use Rattle.copier_course.specs.Courses.{IsCopyJob, IsCourse, IsInside};
ghost use Rattle.copier_moves.specs.Fitting.{IsFitting};
ghost use Rattle.copier_moves.specs.Moves.{IsPut, MovingIsNear, PuttingIsAlong, PuttingKeepsCopied, PuttingKeepsSince};

use bench::Bench;
use copier_course::{CopyJob, Course};
use copy_stages::{DeviceFault, close_window, write_unit};

/// Writes the present unit, which isn't recorded, with these bytes, of which there are as many as it has, and passes
/// it. It joins the window; where that is full then, or the range has no further unit that isn't recorded, the
/// window's units are recorded. After a fault the course is of no more use.

pub fn put_unit<B: Bench>(
    bench: &mut B,
    job: &CopyJob,
    course: &mut Course,
    bytes: &[u8],
) -> Result<(), DeviceFault>
    requires target { IsAttached (B.meter bench.old) Dev.Target }
    requires journal { IsAttached (B.meter bench.old) Dev.Journal }
    requires job { IsCopyJob job.now }
    requires course { IsCourse job.now course.old }
    requires inside { IsInside job.now course.old }
    requires unmarked { ¬ IsMarked course.old.units course.old.unit }
    requires whole { (u : Span) → IsUnitAt job.now.id job.now.map course.old.unit u → length bytes.now ≡ u.len }
    requires fits { B.told → IsFitting job.now course.old (B.disk bench.old) }
    ensures since { B.told → PuttingKeepsSince job.now course.old bytes.now (B.disk bench.old) (B.disk bench.new) }
    ensures own { B.told → KeepsOwn job.now.id (B.disk bench.old) (B.disk bench.new) }
    ensures fits { B.told → OnOk result (IsFitting job.now course.new (B.disk bench.new)) }
    ensures copied { B.told → OnOk result (PuttingKeepsCopied job.now bytes.now course.old course.new (B.disk bench.old) (B.disk bench.new)) }
    ensures narrow { B.told → MovingIsNear job.now course.old (B.disk bench.old) (B.disk bench.new) }
    ensures along { B.told → OnOk result (PuttingIsAlong job.now bytes.now course.old course.new (B.disk bench.old) (B.disk bench.new)) }
    ensures course { OnOk result (IsCourse job.now course.new) }
    ensures put { OnOk result (IsPut job.now course.old course.new) }
    ensures cause { IfErr result (IsCause (B.meter bench.old) (B.meter bench.new)) }
    ensures bill { Costs (1024 + length bytes.now) (B.meter bench.old) (B.meter bench.new) }
    ensures same_names { SameNames (B.meter bench.old) (B.meter bench.new) }
{
    let span = job.units.span(course.unit);
    write_unit(bench, span.at, bytes)?;
    course.take(bytes);
    if !course.is_full(job) {
        return Ok(());
    }
    close_window(bench, &job.id, course.pending.as_slice())?;
    course.record_pending();
    Ok(())
}
