//! `verify`: a target beside the map of a file.
ghost use Rattle.std.specs.Prelude.{◌≡◌, ◌≤◌, [], ◌∷◌, None, OnErr, OnOk, Some, length};
ghost use Rattle.outside.specs.Counts.{NoneFell, Rose};
ghost use Rattle.outside.specs.Printer.{added};
ghost use Rattle.answer_lines.specs.Answer.{error_text};
ghost use Rattle.answer_lines.specs.Lines.{verified_text};
ghost use Rattle.answer_lines.specs.declared.answer.Report.TheVariants as report;
ghost use Rattle.bench.specs.Disk.{Looked, StillLeaves};
ghost use Rattle.bench.specs.Meter.{CostsOn, HasNoOther};
ghost use Rattle.bench.specs.declared.Dev.{Dev};
ghost use Rattle.job_stages.specs.Printing.{Prints};
ghost use Rattle.map_source.specs.Said.{map_said};
ghost use Rattle.verify_job.specs.Devices.{IsBounded, work_said};
ghost use Rattle.device_commands.specs.Devices.{named};
ghost use Rattle.device_commands.specs.Devices.{AreAttached};
ghost use Rattle.job_answers.specs.Printed.{IsRefusal, Reports};
ghost use Rattle.device_commands.specs.VerifyArm.{Compares, VerifyAnswers, VerifyCause, VerifyCompletes, source_answer};
ghost use Rattle.device_commands.specs.VerifyArm.{verify_answer, verify_lines};

use answer_lines::{Answer, LINE_ROOM, Report, verified_line};
use base_fields::Name;
use bench::Bench;
use job_answers::{refuse, reported};
use map_source::SourceFault;
use outside::{Files, PrintErr, Printer};
use std::alloc::Global;
use verify_job::{VerifyJobFault, verify_target};

/// Compares a target with a map, and prints its line.
pub fn run_verify<F: Files, B: Bench, P: Printer>(
    alloc: Global,
    map: Name,
    target: Name,
    files: &mut F,
    bench: &mut B,
    out: &mut P,
) -> Answer
    requires { HasNoOther (B.meter bench.old) Dev.Target target }
    ensures answers { F.told → VerifyAnswers (F.file files.old) map result }
    ensures compared { F.told → B.told → Compares (F.file files.old) map ((B.disk bench.old).reads Dev.Target) result }
    ensures cause { VerifyCause map (F.counts files.old) (F.counts files.new) (B.meter bench.old) (B.meter bench.new) (P.faults out.old) (P.faults out.new) result }
    ensures complete { F.told → VerifyCompletes (F.file files.old) map (F.counts files.old) (F.counts files.new) (P.faults out.old) (P.faults out.new) (B.meter bench.old) (B.meter bench.new) result }
    ensures none_fell { NoneFell (F.counts files.old) (F.counts files.new) }
    ensures none_fell_lines { P.faults out.old ≤ P.faults out.new }
    ensures same_files { F.file files.new ≡ F.file files.old }
    ensures looked { Looked (B.disk bench.old) (B.disk bench.new) }
    ensures stays { (each : Dev) → StillLeaves each (B.disk bench.old) (B.disk bench.new) }
    ensures attached { AreAttached (named (Some target) None) (B.meter bench.old) (B.meter bench.new) }
    ensures bill { F.told → CostsOn Dev.Target (work_said (length target) (map_said (F.file files.old map))) (B.meter bench.old) (B.meter bench.new) }
    ensures bounded { IsBounded (length target) (B.meter bench.old) (B.meter bench.new) }
    ensures prints { F.told → Prints (verify_lines (F.file files.old) map result) (P.lines out.old) (P.lines out.new) (P.faults out.old) (P.faults out.new) }
    ensures refuses { IsRefusal result → Prints (error_text result ∷ []) (P.lines out.old) (P.lines out.new) (P.faults out.old) (P.faults out.new) }
{
    match verify_target(alloc, files, bench, map.text(), target.text()) {
        Ok(ranges) => report_verified(ranges, out),
        Err(fault) => refuse(answer_of_verify(map, fault), out),
    }
}

// Prints the line of a target that has its digests, and answers so.
fn report_verified<P: Printer>(ranges: u64, out: &mut P) -> Answer
    ensures answer { Reports (report.Verified ranges) (P.faults out.old) (P.faults out.new) result }
    ensures prints { Prints (verified_text ranges ∷ []) (P.lines out.old) (P.lines out.new) (P.faults out.old) (P.faults out.new) }
    ensures none_fell { P.faults out.old ≤ P.faults out.new }
{
    let printed = print_verified(ranges, out);
    reported(printed, Report::Verified { ranges })
}

fn print_verified<P: Printer>(ranges: u64, out: &mut P) -> Result<(), PrintErr>
    ensures printed { OnOk result (P.lines out.new ≡ added (P.lines out.old) (verified_text ranges)) }
    ensures ok { OnOk result (P.faults out.new ≡ P.faults out.old) }
    ensures failed { OnErr result (Rose (P.faults out.old) (P.faults out.new)) }
    ensures err { OnErr result (P.lines out.new ≡ P.lines out.old) }
    ensures none_fell { P.faults out.old ≤ P.faults out.new }
{
    let mut room = [0; LINE_ROOM];
    let length = verified_line(ranges, &mut room);
    out.line(&room[..length])?;
    Ok(())
}

pub fn answer_of_source(map: Name, fault: SourceFault) -> Answer
    ensures answer { result ≡ source_answer map fault }
    ensures refusal { IsRefusal result }
{
    match fault {
        SourceFault::Missing => Answer::Missing { name: map },
        SourceFault::SourceShort { at } => Answer::SourceShort { name: map, at },
        SourceFault::FileFault => Answer::FileFault,
        SourceFault::BadMap { place } => Answer::BadMap { place },
        SourceFault::OtherVersion { place } => Answer::OtherVersion { place },
        SourceFault::OtherDigest { place } => Answer::OtherDigest { place },
        SourceFault::BadCounts { want, got } => Answer::BadCounts { want, got },
        SourceFault::SumDiffers { want, got } => Answer::SumDiffers { want, got },
        SourceFault::NoMemory => Answer::NoMemory,
    }
}

fn answer_of_verify(map: Name, fault: VerifyJobFault) -> Answer
    ensures answer { result ≡ verify_answer map fault }
    ensures refusal { IsRefusal result }
{
    match fault {
        VerifyJobFault::Map(fault) => answer_of_source(map, fault),
        VerifyJobFault::TargetTooSmall { has, needs } => Answer::TargetTooSmall { has, needs },
        VerifyJobFault::TargetDiffers { range, want, got } => Answer::TargetDiffers {
            range,
            want,
            got,
        },
        VerifyJobFault::DeviceFault { dev } => Answer::DeviceFault { dev },
        VerifyJobFault::NoMemory => Answer::NoMemory,
    }
}
