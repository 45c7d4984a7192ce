ghost use Rattle.copy_laws.specs.Endings.{MixedIsOne, OneOutcome};
ghost use Rattle.copy_laws.specs.Marks.{CheckingKeepsStanding, ClearingKeepsStanding, DoneIsCopied, FirstStart};
ghost use Rattle.copy_laws.specs.Marks.{ForeignStands, NewStands, RecordingKeepsStanding, UnheldStands};
ghost use Rattle.copy_laws.specs.Narrowing.{CheckIsNear, ClearIsNear, UnitsAreNear};
ghost use Rattle.copy_laws.specs.Opening.{ClosingKeepsStanding, MarksKeepOwn, NewHasSameMarks, OpeningIsAlong};
ghost use Rattle.copy_laws.specs.Ranges.{CheckedIsAlong, EndHasMixed};
ghost use Rattle.copy_laws.specs.Small.{SmallIsCopied, SmallIsInOrder};
ghost use Rattle.copy_laws.specs.Steps.{ClosedIsAlong, KeptIsAlong, TakenIsAlong};
ghost use Rattle.copy_laws.specs.Writes.{OneUnitTorn, WritesKeepBytes, WritesKeepDigests, WritesKeepSince, WritesKeepStanding, WritesKeepTheRest};

/// Nothing is done: the contract is the law of a write to the target.
///
/// Where the units that are written aren't recorded, and their ranges aren't checked, a pair that stands
/// stands with any of their bytes, and nothing off the map changes. Each part is kept on its own.
pub fn writes_keep_since()
    ensures one { OneUnitTorn }
    ensures digests { WritesKeepDigests }
    ensures bytes { WritesKeepBytes }
    ensures rest { WritesKeepTheRest }
    ensures standing { WritesKeepStanding }
    ensures since { WritesKeepSince }
{}

/// Nothing is done: the contract is the law of the writes of marks.
///
/// A torn mark of a unit is true where the unit reads as the source's bytes, and that of a range where its
/// units are recorded and its digest holds. A clearing that is torn back is true where all the units were
/// recorded.
pub fn marks_keep_standing()
    ensures recording { RecordingKeepsStanding }
    ensures checking { CheckingKeepsStanding }
    ensures clearing { ClearingKeepsStanding }
{}

/// Nothing is done: the contract is the law of the journals of which nothing is said.
///
/// Such a journal stands with any target, so a first start has all that is kept from then on.
pub fn unheld_journals_stand()
    ensures unheld { UnheldStands }
    ensures foreign { ForeignStands }
    ensures new { NewStands }
    ensures first { FirstStart }
{}

/// Nothing is done: the contract is the law of the end.
///
/// Where every range is checked, each digest holds and the mapped bytes are the source's.
pub fn checked_ranges_are_copied()
    ensures { DoneIsCopied }
{}

/// Nothing is done: the contract is the law of how near a copy stays to the start of its run.
///
/// A pair that differs from one of a copier on its way only by what it writes there is narrow, and keeps
/// what was recorded and checked at the start, but for the units of a range that differs.
pub fn steps_are_narrow()
    ensures units { UnitsAreNear }
    ensures check { CheckIsNear }
    ensures clear { ClearIsNear }
{}

/// Nothing is done: the contract is the law that a run has one outcome.
///
/// What a range's bytes become is determined by the start and the source, so a run that meets no fault of a
/// device ends in one way at most.
pub fn runs_end_one_way()
    ensures mixed { MixedIsOne }
    ensures outcome { OneOutcome }
{}

/// Nothing is done: the contract is the law of the opening of a run.
///
/// A copier that was opened is along for its start, where the journal has the marks that it had there.
pub fn openings_are_along()
    ensures new { NewHasSameMarks }
    ensures along { OpeningIsAlong }
{}

/// Nothing is done: the contract is the law of the bytes in front of the marks.
///
/// A held journal whose gate is torn stands, and one that isn't held, or is opened for the job, stays so
/// under any marks.
pub fn gates_keep_standing()
    ensures closing { ClosingKeepsStanding }
    ensures own { MarksKeepOwn }
{}

/// Nothing is done: the contract is the law of the steps of a copier on its way.
///
/// It is along at the position behind its present unit, whether that is kept, or is written and joins the
/// window, or is written and closes it.
pub fn steps_go_along()
    ensures kept { KeptIsAlong }
    ensures taken { TakenIsAlong }
    ensures closed { ClosedIsAlong }
{}

/// Nothing is done: the contract is the law of the end of a range.
///
/// What the target reads there is made of what was recorded at the start and of the source's bytes; and
/// behind a range that was checked the copier is along at the next one that isn't.
pub fn ranges_end_along()
    ensures mixed { EndHasMixed }
    ensures checked { CheckedIsAlong }
{}

/// Nothing is done: the contract is two cases by hand, of a copy of three bytes.
pub fn small_copies()
    ensures copied { SmallIsCopied }
    ensures in_order { SmallIsInOrder }
{}
