//! `forget`: what a journal holds is taken back.
ghost use Rattle.std.specs.Prelude.{◌≡◌, ◌+◌, ◌≤◌, [], ◌∷◌, None, OnErr, OnOk, Some, length};
ghost use Rattle.outside.specs.Counts.{Rose};
ghost use Rattle.outside.specs.Printer.{added};
ghost use Rattle.answer_lines.specs.Answer.{error_text};
ghost use Rattle.answer_lines.specs.Lines.{forgotten_text};
ghost use Rattle.answer_lines.specs.declared.answer.Report.TheVariants as report;
ghost use Rattle.bench.specs.Disk.{Looked};
ghost use Rattle.bench.specs.Meter.{CostsOn, HasNoOther};
ghost use Rattle.bench.specs.declared.Dev.{Dev};
ghost use Rattle.job_stages.specs.Printing.{Prints};
ghost use Rattle.journal_format.specs.Journals.{IsHeld};
ghost use Rattle.job_answers.specs.Printed.{IsRefusal, Reports, line_of};
ghost use Rattle.device_commands.specs.CopyArm.{IsUnwritten};
ghost use Rattle.device_commands.specs.Devices.{AreAttached, named};
ghost use Rattle.device_commands.specs.ForgetArm.{ForgetCause, Forgets, ForgettingKeepsSince};

use answer_lines::{Answer, LINE_ROOM, Report, forgotten_line};
use base_fields::Name;
use bench::{Bench, BenchErr, Dev};
use copy_job::forget_journal;
use job_answers::{refuse, reported};
use outside::{PrintErr, Printer};

/// Forgets the copy that a journal holds, and prints its line. Takes no memory.
pub fn run_forget<B: Bench, P: Printer>(journal: Name, bench: &mut B, out: &mut P) -> Answer
    requires { HasNoOther (B.meter bench.old) Dev.Journal journal }
    ensures cause { ForgetCause (P.faults out.old) (P.faults out.new) (B.meter bench.old) (B.meter bench.new) result }
    ensures answered { ¬ (IsUnwritten result) }
    ensures forgets { B.told → Forgets (B.disk bench.old) (B.disk bench.new) result }
    ensures since { B.told → ForgettingKeepsSince (B.disk bench.old) (B.disk bench.new) }
    ensures unwritten { B.told → ¬ IsHeld ((B.disk bench.old).reads Dev.Journal) → Looked (B.disk bench.old) (B.disk bench.new) }
    ensures same_target { B.told → (B.disk bench.new).reads Dev.Target ≡ (B.disk bench.old).reads Dev.Target }
    ensures none_fell_lines { P.faults out.old ≤ P.faults out.new }
    ensures attached { AreAttached (named None (Some journal)) (B.meter bench.old) (B.meter bench.new) }
    ensures bill { CostsOn Dev.Journal (2048 + length journal) (B.meter bench.old) (B.meter bench.new) }
    ensures prints { Prints (line_of result) (P.lines out.old) (P.lines out.new) (P.faults out.old) (P.faults out.new) }
    ensures refuses { IsRefusal result → Prints (error_text result ∷ []) (P.lines out.old) (P.lines out.new) (P.faults out.old) (P.faults out.new) }
{
    match forget_journal(bench, journal.text()) {
        Ok(held) => report_forgotten(held, out),
        Err(BenchErr) => refuse(Answer::DeviceFault { dev: Dev::Journal }, out),
    }
}

// Prints the line of a journal that is forgotten, and answers so.
fn report_forgotten<P: Printer>(held: bool, out: &mut P) -> Answer
    ensures answer { Reports (report.Forgotten held) (P.faults out.old) (P.faults out.new) result }
    ensures answered { ¬ (IsUnwritten result) }
    ensures prints { Prints (line_of result) (P.lines out.old) (P.lines out.new) (P.faults out.old) (P.faults out.new) }
    ensures none_fell { P.faults out.old ≤ P.faults out.new }
{
    let printed = print_forgotten(held, out);
    reported(printed, Report::Forgotten { held })
}

fn print_forgotten<P: Printer>(held: bool, out: &mut P) -> Result<(), PrintErr>
    ensures printed { OnOk result (P.lines out.new ≡ added (P.lines out.old) (forgotten_text held)) }
    ensures ok { OnOk result (P.faults out.new ≡ P.faults out.old) }
    ensures failed { OnErr result (Rose (P.faults out.old) (P.faults out.new)) }
    ensures err { OnErr result (P.lines out.new ≡ P.lines out.old) }
    ensures none_fell { P.faults out.old ≤ P.faults out.new }
{
    let mut room = [0; LINE_ROOM];
    let length = forgotten_line(held, &mut room);
    out.line(&room[..length])?;
    Ok(())
}
