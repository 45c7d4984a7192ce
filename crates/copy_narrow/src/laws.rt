ghost use Rattle.copy_narrow.specs.Nearness.{AllSinceAreNear, ChecksAreNear, ClearingsAreNear, ClosingsAreNear};
ghost use Rattle.copy_narrow.specs.Nearness.{EmptyWindowIsSettled, EndGivesMixed, LooksAreNear, OpenIsWindow};
ghost use Rattle.copy_narrow.specs.Nearness.{SettledIsWindow, WindowIsOpen, WindowTakesUnit, WritesAreNear};
ghost use Rattle.copy_narrow.specs.Nearness.{WritesStayOpen};
ghost use Rattle.copy_narrow.specs.Written.{WritesAreWritten};

use bench::Bench;

/// Nothing is done: the contract is the law of the stages that write marks on the journal, between two states
/// of a bench.
///
/// Where both devices are settled and the copier is along, any image of the present range's mark stays near to
/// the start, and any of its units' marks does where its digest isn't that of its Mixed.
pub fn journal_stages_are_near<B: Bench>(before: &B, after: &B)
    ensures check { ChecksAreNear (B.disk before.now) (B.disk after.now) }
    ensures clear { ClearingsAreNear (B.disk before.now) (B.disk after.now) }
{}

/// Nothing is done: the contract is the law of the closing of a window, between two states of a bench.
///
/// Where the journal is settled and only open units may have been written since the copier was along, any marks
/// of open units stay near to the start; so does what is left where nothing is written.
pub fn windows_are_near<B: Bench>(before: &B, after: &B)
    ensures look { LooksAreNear (B.disk before.now) (B.disk after.now) }
    ensures closing { ClosingsAreNear (B.disk before.now) (B.disk after.now) }
{}

/// Nothing is done: the contract is the law of the writes of a unit, between two states of a bench.
///
/// Any bytes of an open unit stay near to the start, and the copier may go on from there: write again, or close
/// the window. A write that is Ok of the source's bytes is what keeps the copier on its way.
pub fn writes_are_near<B: Bench>(before: &B, after: &B)
    ensures write { WritesAreNear (B.disk before.now) (B.disk after.now) }
    ensures goes_on { WritesStayOpen (B.disk before.now) (B.disk after.now) }
    ensures written { WritesAreWritten (B.disk before.now) (B.disk after.now) }
{}

/// Nothing is done: the contract is the law of a copier that is along as the devices read.
///
/// Its window's units may have been written, and its present unit may be, where that is idle; where the window
/// is empty, both devices are settled.
pub fn windows_are_open<B: Bench>(bench: &B)
    ensures window { WindowIsOpen (B.disk bench.now) }
    ensures unit { WindowTakesUnit (B.disk bench.now) }
    ensures empty { EmptyWindowIsSettled (B.disk bench.now) }
{}

/// Nothing is done: the contract is the law of a copier that has come to its next position.
///
/// Where it is along there as the devices read, its window is open again: by the units that were written, which
/// have joined it, or by devices that are settled.
pub fn windows_go_on<B: Bench>(bench: &B)
    ensures taken { OpenIsWindow (B.disk bench.now) }
    ensures settled { SettledIsWindow (B.disk bench.now) }
{}

/// Nothing is done: the contract is the law of all pairs since a state of a bench, by which stages that follow one
/// another stay near as one.
pub fn pairs_since_are_near<B: Bench>(before: &B, after: &B)
    ensures { AllSinceAreNear (B.disk before.now) (B.disk after.now) }
{}

/// Nothing is done: the contract is the law of a range that differs, whose units are taken back.
pub fn ends_give_mixed()
    ensures { EndGivesMixed }
{}
