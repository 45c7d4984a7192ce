ghost use Rattle.std.specs.Prelude.{◌≡◌, ◌≤◌, [], ◌∷◌};
ghost use Rattle.answer_lines.specs.Answer.{error_text};
ghost use Rattle.job_stages.specs.Printing.{Prints};
ghost use Rattle.job_answers.specs.Printed.{IsRefusal, reported_of};

use answer_lines::{Answer, LINE_ROOM, Report, error_line};
use outside::{PrintErr, Printer};

/// Prints the line of a refusal, which is the answer whether or not the line fails.
pub fn refuse<P: Printer>(refusal: Answer, out: &mut P) -> Answer
    requires { IsRefusal refusal }
    ensures answer { result ≡ refusal }
    ensures refusal { IsRefusal result }
    ensures prints { Prints (error_text refusal ∷ []) (P.lines out.old) (P.lines out.new) (P.faults out.old) (P.faults out.new) }
    ensures none_fell { P.faults out.old ≤ P.faults out.new }
{
    let mut room = [0; LINE_ROOM];
    let length = error_line(&refusal, &mut room);
    let _ = out.line(&room[..length]);
    refusal
}

/// The answer where the work is done and these lines were printed, or one wasn't.
pub fn reported(printed: Result<(), PrintErr>, report: Report) -> Answer
    ensures { result ≡ reported_of printed report }
{
    match printed {
        Ok(()) => Answer::Done(report),
        Err(PrintErr) => Answer::PrintFault,
    }
}
