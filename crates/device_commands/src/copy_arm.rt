//! `copy` and `resume`: the mapped bytes of a file are written to a target, beside a journal.
ghost use Rattle.std.specs.Prelude.{◌≡◌, ◌≤◌, [], ◌∷◌, None, OnErr, OnOk, Some, IfOk, IfErr, Result};
ghost use Rattle.base_fields.specs.Numbers.{IsPowerBetween};
ghost use Rattle.outside.specs.Counts.{NoneFell, Rose};
ghost use Rattle.outside.specs.Printer.{added};
ghost use Rattle.outside.specs.declared.printer.PrintErr.{PrintErr};
ghost use Rattle.answer_lines.specs.Answer.{error_text};
ghost use Rattle.answer_lines.specs.Lines.{copied_text};
ghost use Rattle.answer_lines.specs.declared.answer.Report.TheVariants as report;
ghost use Rattle.bench.specs.Disk.{Looked, StillLeaves};
ghost use Rattle.bench.specs.Meter.{Costs, HasNoOther};
ghost use Rattle.bench.specs.declared.Dev.{Dev};
ghost use Rattle.copier.specs.Faults.{NoneIsLeft};
ghost use Rattle.copy_job.specs.Devices.{IsBounded, work_said};
ghost use Rattle.copy_job.specs.Said.{copying_said};
ghost use Rattle.copy_opening.specs.declared.opening.Mode.{Mode};
ghost use Rattle.copy_run.specs.Faults.{IsRunFault};
ghost use Rattle.copy_run.specs.Runs.{OpensFor, RunHasOutcome, RunIsDone, RunIsNarrow, RunIsTallied, RunKeepsMarks, RunKeepsSince};
ghost use Rattle.copy_stages.specs.Stages.{KeepsOwn};
ghost use Rattle.job_stages.specs.Printing.{Prints};
ghost use Rattle.journal_format.specs.Journals.{IsHeld, IsWindow};
ghost use Rattle.job_answers.specs.Printed.{IsRefusal, Reports, line_of, reported_of};
ghost use Rattle.device_commands.specs.CopyArm.{CopyAnswers, CopyCause, CopyCompletes, IsUnwritten, Tells, copy_answer, run_answer};
ghost use Rattle.device_commands.specs.Devices.{AreAttached, named};

use crate::verify_arm::answer_of_source;
use answer_lines::{Answer, LINE_ROOM, Report, copied_line};
use base_fields::Name;
use bench::Bench;
use copy_job::{CopyFault, CopyJobFault, CopyRequest, Tally, copy_target};
use job_answers::{refuse, reported};
use outside::{Files, PrintErr, Printer};
use std::alloc::Global;

/// Copies what is left of a job, and prints its line. It may be stopped at any call on a device, and gone on with.
pub fn run_copy<F: Files, B: Bench, P: Printer>(
    alloc: Global,
    request: CopyRequest,
    files: &mut F,
    bench: &mut B,
    out: &mut P,
) -> Answer
    requires target { HasNoOther (B.meter bench.old) Dev.Target request.target }
    requires journal { HasNoOther (B.meter bench.old) Dev.Journal request.journal }
    requires unit { IsPowerBetween 65536 4194304 request.unit }
    requires window { IsWindow request.window }
    ensures answers { F.told → CopyAnswers (F.file files.old) request result }
    ensures cause { CopyCause request (F.counts files.old) (F.counts files.new) (B.meter bench.old) (B.meter bench.new) (P.faults out.old) (P.faults out.new) result }
    ensures complete { F.told → CopyCompletes (F.file files.old) request (F.counts files.old) (F.counts files.new) (P.faults out.old) (P.faults out.new) (B.meter bench.old) (B.meter bench.new) result }

    // Each pair of images since the start, whatever is answered.
    ensures since { F.told → B.told → IfOk (copying_said (F.file files.old) request) (λ job. RunKeepsSince F.told (F.file files.old job.source) job (B.disk bench.old) (B.disk bench.new)) }
    ensures narrow { F.told → B.told → IfOk (copying_said (F.file files.old) request) (λ job. RunIsNarrow F.told (F.file files.old job.source) job (B.disk bench.old) (B.disk bench.new)) }
    ensures keeps { F.told → B.told → IfOk (copying_said (F.file files.old) request) (λ job. RunKeepsMarks F.told (F.file files.old job.source) job (B.disk bench.old) (B.disk bench.new)) }
    ensures own { F.told → B.told → IfOk (copying_said (F.file files.old) request) (λ job. KeepsOwn job.id (B.disk bench.old) (B.disk bench.new)) }

    // What the answer tells of the devices, and of the outcome.
    ensures opened { F.told → B.told → IfOk (copying_said (F.file files.old) request) (λ job. Tells (OpensFor job ((B.disk bench.old).reads Dev.Target) ((B.disk bench.old).reads Dev.Journal)) result) }
    ensures copied { F.told → B.told → IfOk (copying_said (F.file files.old) request) (λ job. Tells (RunIsDone job (B.disk bench.new)) result) }
    ensures tallied { F.told → B.told → IfOk (copying_said (F.file files.old) request) (λ job. Tells (RunIsTallied job (B.disk bench.old)) result) }
    ensures outcome { F.told → B.told → IfOk (copying_said (F.file files.old) request) (λ job. Tells (RunHasOutcome F.told (F.file files.old job.source) job (B.disk bench.old)) result) }
    ensures cleared { F.told → B.told → IfOk (copying_said (F.file files.old) request) (λ job. Tells (λ answer. IfErr answer (NoneIsLeft job (B.disk bench.new))) result) }

    ensures caused { F.told → IfOk (copying_said (F.file files.old) request) (λ job. Tells (λ answer. IfErr answer (IsRunFault B.told job (B.disk bench.new) (F.counts files.old) (F.counts files.new) (B.meter bench.old) (B.meter bench.new))) result) }

    // What is left as it was.
    ensures unwritten { B.told → IsUnwritten result → Looked (B.disk bench.old) (B.disk bench.new) }
    ensures held { B.told → request.mode ≡ Mode.Fresh → IsHeld ((B.disk bench.old).reads Dev.Journal) → Looked (B.disk bench.old) (B.disk bench.new) }
    ensures before { F.told → IfErr (copying_said (F.file files.old) request) (λ refusal. Looked (B.disk bench.old) (B.disk bench.new)) }
    ensures stays { F.told → IfErr (copying_said (F.file files.old) request) (λ refusal. (each : Dev) → StillLeaves each (B.disk bench.old) (B.disk bench.new)) }

    ensures none_fell { NoneFell (F.counts files.old) (F.counts files.new) }
    ensures none_fell_lines { P.faults out.old ≤ P.faults out.new }
    ensures same_files { F.file files.new ≡ F.file files.old }
    ensures attached { AreAttached (named (Some request.target) (Some request.journal)) (B.meter bench.old) (B.meter bench.new) }
    ensures bill { F.told → Costs (work_said request (copying_said (F.file files.old) request)) (B.meter bench.old) (B.meter bench.new) }
    ensures bounded { IsBounded request (B.meter bench.old) (B.meter bench.new) }
    ensures prints { Prints (line_of result) (P.lines out.old) (P.lines out.new) (P.faults out.old) (P.faults out.new) }
    ensures refuses { IsRefusal result → Prints (error_text result ∷ []) (P.lines out.old) (P.lines out.new) (P.faults out.old) (P.faults out.new) }
{
    match copy_target(alloc, files, bench, &request) {
        Ok(tally) => report_copied(tally, out),
        Err(fault) => refuse(answer_of_copy(request, fault), out),
    }
}

// Prints the line of a copy that is done, and answers so.
fn report_copied<P: Printer>(tally: Tally, out: &mut P) -> Answer
    ensures answer { Reports (report.Copied tally.units tally.written tally.kept) (P.faults out.old) (P.faults out.new) result }
    ensures is { (answered : Result Unit PrintErr) × (result ≡ reported_of answered (report.Copied tally.units tally.written tally.kept)) }
    ensures prints { Prints (line_of result) (P.lines out.old) (P.lines out.new) (P.faults out.old) (P.faults out.new) }
    ensures none_fell { P.faults out.old ≤ P.faults out.new }
{
    let printed = print_copied(tally, out);
    reported(
        printed,
        Report::Copied {
            units: tally.units,
            written: tally.written,
            kept: tally.kept,
        },
    )
}

fn print_copied<P: Printer>(tally: Tally, out: &mut P) -> Result<(), PrintErr>
    ensures printed { OnOk result (P.lines out.new ≡ added (P.lines out.old) (copied_text tally.units tally.written tally.kept)) }
    ensures ok { OnOk result (P.faults out.new ≡ P.faults out.old) }
    ensures failed { OnErr result (Rose (P.faults out.old) (P.faults out.new)) }
    ensures err { OnErr result (P.lines out.new ≡ P.lines out.old) }
    ensures none_fell { P.faults out.old ≤ P.faults out.new }
{
    let mut room = [0; LINE_ROOM];
    let length = copied_line(tally.units, tally.written, tally.kept, &mut room);
    out.line(&room[..length])?;
    Ok(())
}

fn answer_of_run(source: Name, fault: CopyFault) -> Answer
    ensures answer { result ≡ run_answer source fault }
    ensures refusal { IsRefusal result }
{
    match fault {
        CopyFault::TargetTooSmall { has, needs } => Answer::TargetTooSmall { has, needs },
        CopyFault::JournalHeld { kept, finished } => Answer::JournalHeld { kept, finished },
        CopyFault::NoJournal => Answer::NoJournal,
        CopyFault::JournalForeign {
            kept,
            given,
            length,
        } => Answer::JournalForeign {
            kept,
            given,
            length,
        },
        CopyFault::SourceShort { at } => Answer::SourceShort { name: source, at },
        CopyFault::Missing => Answer::Missing { name: source },
        CopyFault::FileFault => Answer::FileFault,
        CopyFault::DeviceFault { dev } => Answer::DeviceFault { dev },
        CopyFault::RangeDiffers { range, want, got } => Answer::RangeDiffers { range, want, got },
        CopyFault::NoMemory => Answer::NoMemory,
    }
}

fn answer_of_copy(request: CopyRequest, fault: CopyJobFault) -> Answer
    ensures answer { result ≡ copy_answer request fault }
    ensures refusal { IsRefusal result }
{
    match fault {
        CopyJobFault::Compressed => Answer::Compressed {
            name: request.source,
        },
        CopyJobFault::Missing => Answer::Missing {
            name: request.source,
        },
        CopyJobFault::FileFault => Answer::FileFault,
        CopyJobFault::Map(fault) => answer_of_source(request.map, fault),
        CopyJobFault::TooManyUnits { count, limit } => Answer::TooManyUnits { count, limit },
        CopyJobFault::DeviceFault { dev } => Answer::DeviceFault { dev },
        CopyJobFault::Copy(fault) => answer_of_run(request.source, fault),
        CopyJobFault::NoMemory => Answer::NoMemory,
    }
}
