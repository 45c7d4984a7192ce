ghost use Rattle.chain_laws.specs.Laws.{BenchesStand, ChainsKeepSince, DoneChainsAreCopied, FirstStartsHaveSince};
ghost use Rattle.chain_laws.specs.Laws.{UninterruptedAreCopied};

use bench::Bench;

/// Nothing is done: the contract is the law of first starts.
///
/// Where the target is settled and no image of the journal is held, whatever a stop may leave there has all that each run
/// of the copy keeps.
pub fn first_starts_have_since<B: Bench>()
    ensures { FirstStartsHaveSince B.disk }
{}

/// Nothing is done: the contract is the law of chains, by induction on the list of runs.
///
/// However often a copy is stopped and gone on with, what is recorded on the journal is true of the target, and off the
/// mapped bytes the target is as it was before the first start. A run may begin on the bench as it stands.
pub fn chains_keep_since<B: Bench>()
    ensures stands { BenchesStand B.disk }
    ensures since { ChainsKeepSince B.disk }
{}

/// Nothing is done: the contract is the law of chains that come to their end.
///
/// Once a run answers done, every mapped byte of the target is the source's, each digest holds, and all else is as before
/// the first start; a stop afterwards takes nothing back. So it is of a copy without interruption, which is one run.
pub fn done_chains_are_copied<B: Bench>()
    ensures chain { B.told → DoneChainsAreCopied B.disk }
    ensures alone { B.told → UninterruptedAreCopied B.disk }
{}
