ghost use Rattle.std.specs.Prelude.{◌≤◌, [], ◌∷◌, map, string_bytes};
ghost use Rattle.outside.specs.Counts.{NoneFell};
ghost use Rattle.answer_lines.specs.Answer.{error_text};
ghost use Rattle.bench.specs.declared.Dev.{Dev};
ghost use Rattle.job_stages.specs.Printing.{Prints};
ghost use Rattle.image_jobs.specs.Asked.{asked, names_of};
ghost use Rattle.device_commands.specs.Devices.{AreAttached, MayAttach};
ghost use Rattle.job_answers.specs.Printed.{IsRefusal};
ghost use Rattle.image_jobs.specs.OnDevices.{HasBill, HasBound, HasForgotten, HasOutcome, HasRunCause, IsCleared, IsCopied, IsTallied, KeepsItsJournal, KeepsMarks};
ghost use Rattle.image_jobs.specs.OnDevices.{KeepsSince, LeavesDevices, LeavesUnsaid, StaysNarrow, TellsOpening, WritesNothing};
ghost use Rattle.image_jobs.specs.Run.{Answers, Changes, Completes, HasCause, HasCompared, HasMade, IsUsage, lines_of};

use crate::build_arm::run_build;
use crate::list_arm::run_list;
use crate::map_arm::run_map;
use crate::request::{Command, asked};
use answer_lines::Answer;
use bench::Bench;
use conf_sections::Vars;
use device_commands::{run_copy, run_forget, run_verify};
use job_answers::refuse;
use job_words::WordFault;
use outside::{Files, Printer};
use std::alloc::Global;

/// Does what the words say, over these files and devices, and prints its lines: `build CONF` makes the images of the
/// configuration CONF, whose variables are these; `map CONF IMAGE OUT` writes the block map of one of them; `copy SOURCE
/// MAP TARGET JOURNAL` copies the mapped bytes of a file to a target, beside a journal, `resume` goes on with it, and `forget
/// JOURNAL` takes back what a journal holds; `verify MAP TARGET` compares a target with a map; `list IMAGE` shows what stands
/// in a file. Commands that aren't there yet are no words. Each clause goes by what the words ask for; what is wanted is a
/// function of that, of the variables and of the files as they are told.
pub fn run<F: Files, B: Bench, P: Printer>(
    alloc: Global,
    words: &Vec<String>,
    vars: &Vars,
    files: &mut F,
    bench: &mut B,
    out: &mut P,
) -> Answer
    // Each device that the command uses has no name, or the word's.
    requires names { MayAttach (names_of (asked (map string_bytes words.now.items))) (B.meter bench.old) }

    ensures usage { IsUsage (asked (map string_bytes words.now.items)) result }

    // The work is done, or the first refusal is answered, or a counted fault, or a want of memory.
    ensures answers { F.told → Answers (asked (map string_bytes words.now.items)) vars.now (F.file files.old) (F.file files.new) result }
    ensures compared { F.told → B.told → HasCompared (asked (map string_bytes words.now.items)) (F.file files.old) ((B.disk bench.old).reads Dev.Target) result }
    ensures cause { HasCause (asked (map string_bytes words.now.items)) (F.counts files.old) (F.counts files.new) (B.meter bench.old) (B.meter bench.new) (P.faults out.old) (P.faults out.new) result }
    // Where no call and no line failed, the work is done, or what is wanted is refused, or memory is.
    ensures complete { F.told → Completes (asked (map string_bytes words.now.items)) vars.now (F.file files.old) (F.file files.new) (F.counts files.old) (F.counts files.new) (P.faults out.old) (P.faults out.new) (B.meter bench.old) (B.meter bench.new) result }
    ensures none_fell { NoneFell (F.counts files.old) (F.counts files.new) }
    ensures none_fell_lines { P.faults out.old ≤ P.faults out.new }

    // Where the work is done, each byte of each image is the one that its layout names, parts and tables lie apart, and the
    // tables read back; a map is that of its image. Whatever is answered, every name but those of the images, or of the map,
    // is as before.
    ensures made { F.told → HasMade (asked (map string_bytes words.now.items)) vars.now (F.file files.old) (F.file files.new) result }
    ensures changes { F.told → Changes (asked (map string_bytes words.now.items)) vars.now (F.file files.old) (F.file files.new) }

    // Of a copy, whatever it answers: where each pair of images at the start has Since, so has each pair that a stop since may
    // have left, and so at the exit; a forgetting keeps it, too. Where the target was settled, each pair is narrow for what
    // was read at the start; where the journal was, too, it keeps what was recorded and checked.
    ensures since { F.told → B.told → KeepsSince (asked (map string_bytes words.now.items)) F.told (F.file files.old) (B.disk bench.old) (B.disk bench.new) }
    ensures narrow { F.told → B.told → StaysNarrow (asked (map string_bytes words.now.items)) F.told (F.file files.old) (B.disk bench.old) (B.disk bench.new) }
    ensures keeps { F.told → B.told → KeepsMarks (asked (map string_bytes words.now.items)) F.told (F.file files.old) (B.disk bench.old) (B.disk bench.new) }
    ensures own { F.told → B.told → KeepsItsJournal (asked (map string_bytes words.now.items)) (F.file files.old) (B.disk bench.old) (B.disk bench.new) }

    // Of a copy, by its answer: done means copied, and its numbers and its end are those of what stood at its start; it is
    // opened and refused exactly where that says so; after a difference nothing of the range is recorded. A forgetting that
    // is done leaves no image of the journal held.
    ensures copied { F.told → B.told → IsCopied (asked (map string_bytes words.now.items)) (F.file files.old) (B.disk bench.new) result }
    ensures tallied { F.told → B.told → IsTallied (asked (map string_bytes words.now.items)) (F.file files.old) (B.disk bench.old) result }
    ensures outcome { F.told → B.told → HasOutcome (asked (map string_bytes words.now.items)) F.told (F.file files.old) (B.disk bench.old) result }
    ensures opened { F.told → B.told → TellsOpening (asked (map string_bytes words.now.items)) (F.file files.old) (B.disk bench.old) result }
    ensures caused { F.told → HasRunCause (asked (map string_bytes words.now.items)) B.told (F.file files.old) (B.disk bench.new) (F.counts files.old) (F.counts files.new) (B.meter bench.old) (B.meter bench.new) result }
    ensures cleared { F.told → B.told → IsCleared (asked (map string_bytes words.now.items)) (F.file files.old) (B.disk bench.new) result }
    ensures forgotten { B.told → HasForgotten (asked (map string_bytes words.now.items)) (B.disk bench.old) (B.disk bench.new) result }

    // Nothing is written where memory is refused, nor where a copy isn't opened; but for a copy and a forgetting, all that the
    // devices read and may leave is as before. Each device is attached under its word, or as before.
    ensures unwritten { B.told → WritesNothing (asked (map string_bytes words.now.items)) (B.disk bench.old) (B.disk bench.new) result }
    ensures looked { LeavesDevices (asked (map string_bytes words.now.items)) (B.disk bench.old) (B.disk bench.new) }
    ensures unsaid { F.told → LeavesUnsaid (asked (map string_bytes words.now.items)) (F.file files.old) (B.disk bench.old) (B.disk bench.new) }
    ensures attached { AreAttached (names_of (asked (map string_bytes words.now.items))) (B.meter bench.old) (B.meter bench.new) }
    ensures bill { F.told → HasBill (asked (map string_bytes words.now.items)) (F.file files.old) (B.meter bench.old) (B.meter bench.new) }
    ensures bounded { HasBound (asked (map string_bytes words.now.items)) (B.meter bench.old) (B.meter bench.new) }

    ensures prints { F.told → Prints (lines_of (asked (map string_bytes words.now.items)) vars.now (F.file files.old) (F.file files.new) result) (P.lines out.old) (P.lines out.new) (P.faults out.old) (P.faults out.new) }
    // The line of a refusal is a matter of the answer alone.
    ensures refuses { IsRefusal result → Prints (error_text result ∷ []) (P.lines out.old) (P.lines out.new) (P.faults out.old) (P.faults out.new) }
{
    let command = match asked(alloc, words) {
        Ok(command) => command,
        Err(WordFault::Usage) => return refuse(Answer::Usage, out),
        Err(WordFault::NoMemory) => return refuse(Answer::NoMemory, out),
    };
    match command {
        Command::Build(request) => run_build(alloc, request, vars, files, out),
        Command::Map(mapping) => run_map(alloc, mapping, vars, files, out),
        Command::Copy(request) => run_copy(alloc, request, files, bench, out),
        Command::Forget { journal } => run_forget(journal, bench, out),
        Command::Verify { map, target } => run_verify(alloc, map, target, files, bench, out),
        Command::List { image } => run_list(alloc, image, files, out),
    }
}
