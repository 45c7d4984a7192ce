ghost use Rattle.copy_tally.specs.Laws.{DoneHaveAll, OpenedHaveNone, StepsAddUp, TalliesAreOne, UnitsAreMapped};

/// Nothing is done: the contract is the law of a run's numbers. A copier that was just opened has none, a step adds what
/// it did, and where nothing is left each idle unit is written, and each recorded one of a range that wasn't checked is
/// kept.
pub fn runs_are_tallied()
    ensures opened { OpenedHaveNone }
    ensures steps { StepsAddUp }
    ensures done { DoneHaveAll }
{}

/// Nothing is done: the contract is the law that a run that is done has one pair of numbers.
pub fn tallies_are_one()
    ensures { TalliesAreOne }
{}

/// Nothing is done: the contract is the law that the units of a map have as many bytes as are mapped.
pub fn units_are_mapped()
    ensures { UnitsAreMapped }
{}
