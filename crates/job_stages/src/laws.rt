ghost use Rattle.job_stages.specs.Printing.{FrontsJoin, LinesJoin};

/// Nothing is done: the contract is the law that one list of lines behind another is the two joined.
///
/// So what is printed in turns, each turn a front of its own lines and all of them but in the last,
/// is a front of the joined lines.
#[tactic(auto, using(crate::proofs::PrintingLemmas::lines_join, crate::proofs::PrintingLemmas::fronts_join))]
pub fn lines_are_joined()
    ensures lines { LinesJoin }
    ensures fronts { FrontsJoin }
{}
