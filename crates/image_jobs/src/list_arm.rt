//! `list`: what stands in a file.
ghost use Rattle.std.specs.Prelude.{◌≡◌, ◌≤◌, [], ◌∷◌};
ghost use Rattle.outside.specs.Counts.{NoneFell};
ghost use Rattle.answer_lines.specs.Answer.{error_text};
ghost use Rattle.answer_lines.specs.declared.answer.Report.TheVariants as report;
ghost use Rattle.job_stages.specs.Printing.{Prints};
ghost use Rattle.list_job.specs.Listings.{IsListing};
ghost use Rattle.list_job.specs.Printed.{listing_lines};
ghost use Rattle.image_jobs.specs.ListArm.{ListAnswers, ListCause, ListCompletes, list_answer, list_lines};
ghost use Rattle.job_answers.specs.Printed.{IsRefusal, Reports};

use answer_lines::{Answer, Report};
use base_fields::Name;
use job_answers::{refuse, reported};
use list_job::{ListFault, Listing, print_listing, read_listing};
use outside::{Files, Printer};
use std::alloc::Global;

/// Lists what stands in a file, and prints its lines.
pub fn run_list<F: Files, P: Printer>(
    alloc: Global,
    image: Name,
    files: &mut F,
    out: &mut P,
) -> Answer
    ensures answers { F.told → ListAnswers (F.file files.old) image result }
    ensures cause { ListCause image (F.counts files.old) (F.counts files.new) (P.faults out.old) (P.faults out.new) result }
    ensures complete { F.told → ListCompletes (F.file files.old) image (F.counts files.old) (F.counts files.new) (P.faults out.old) (P.faults out.new) result }
    ensures none_fell { NoneFell (F.counts files.old) (F.counts files.new) }
    ensures none_fell_lines { P.faults out.old ≤ P.faults out.new }
    ensures same_files { F.file files.new ≡ F.file files.old }
    ensures prints { F.told → Prints (list_lines (F.file files.old) image result) (P.lines out.old) (P.lines out.new) (P.faults out.old) (P.faults out.new) }
    ensures refuses { IsRefusal result → Prints (error_text result ∷ []) (P.lines out.old) (P.lines out.new) (P.faults out.old) (P.faults out.new) }
{
    match read_listing(alloc, files, image.text()) {
        Ok(listing) => report_listed(&listing, out),
        Err(fault) => refuse(answer_of_list(image, fault), out),
    }
}

// Prints the lines of what stands in a file, and answers so.
fn report_listed<P: Printer>(listing: &Listing, out: &mut P) -> Answer
    requires form { IsListing listing.now }
    ensures answer { Reports report.Listed (P.faults out.old) (P.faults out.new) result }
    ensures prints { Prints (listing_lines listing.now) (P.lines out.old) (P.lines out.new) (P.faults out.old) (P.faults out.new) }
    ensures none_fell { P.faults out.old ≤ P.faults out.new }
{
    let printed = print_listing(listing, out);
    reported(printed, Report::Listed)
}

fn answer_of_list(image: Name, fault: ListFault) -> Answer
    ensures answer { result ≡ list_answer image fault }
    ensures refusal { IsRefusal result }
{
    match fault {
        ListFault::BadMagic { at } => Answer::BadMagic { at },
        ListFault::BadChunk { k } => Answer::BadChunk { k },
        ListFault::Counts { want, got } => Answer::Counts { want, got },
        ListFault::NoTable => Answer::NoTable,
        ListFault::BadGpt { at } => Answer::BadGpt { at },
        ListFault::BadSum { at, want, got } => Answer::BadSum { at, want, got },
        ListFault::BadChain { at } => Answer::BadChain { at },
        ListFault::Short { at } => Answer::Short { at },
        ListFault::Missing => Answer::Missing { name: image },
        ListFault::FileFault => Answer::FileFault,
        ListFault::NoMemory => Answer::NoMemory,
    }
}
