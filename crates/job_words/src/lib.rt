//! The job that the words of a command line stand for: which command, with which values.
//!
//! The first word names the command. The others are read by a simple `clap` command that has this
//! command's places in their order, its options and its flags, and nothing else.
#![tactic(auto)]

ghost use Rattle.std.specs.Prelude.{map, string_bytes};
ghost use Rattle.job_words.specs.Jobs.{Reads, job_by, job_of};

mod arguments;
mod given;
mod jobs;
mod laws;
mod numbers;
mod places;
mod values;
mod verbs;

pub use jobs::{Job, WordFault};
pub use laws::jobs_are_in_range;
use std::alloc::Global;
use verbs::Verb;

/// The job of the words, of which the first is the command's name. Takes memory.
pub fn read_words(alloc: Global, words: &Vec<String>) -> Result<Job, WordFault>
    ensures { Reads (job_of (map string_bytes words.now.items)) result }
{
    let words = words.as_slice();
    let Some(first) = words.first() else {
        return Err(WordFault::Usage);
    };
    let Some(verb) = Verb::named(first.as_str()) else {
        return Err(WordFault::Usage);
    };
    read_by(verb, alloc, words)
}

// The job of the words of one command.
fn read_by(verb: Verb, alloc: Global, words: &[String]) -> Result<Job, WordFault>
    ensures { Reads (job_by verb (map string_bytes words.now)) result }
{
    let arguments = arguments::arguments(verb, alloc)?;
    let given = arguments.read(words)?;
    values::job(verb, alloc, &given)
}
