ghost use Rattle.command_laws.specs.Laws.{CopiesComplete, SaidJobsAreJobs, SaidMapsAreMaps};

use bench::Bench;
use outside::Files;

/// Nothing is done: the contract is the law of what the files say of a copy.
///
/// What is read of a text as its map is a map, so the job that the files say has units and ranges that go together.
pub fn said_jobs_are_jobs()
    ensures map { SaidMapsAreMaps }
    ensures job { SaidJobsAreJobs }
{}

/// Nothing is done: the contract is the law of copies that can be done, over the clauses of `copy` and `resume`.
///
/// Where no call and no line fails, such a copy is done, and answered as done; else memory was refused, and nothing was
/// written. No other answer is left.
pub fn copies_complete<F: Files, B: Bench>()
    ensures { F.told → CopiesComplete F.told B.disk }
{}
