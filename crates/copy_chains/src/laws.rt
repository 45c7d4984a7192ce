ghost use Rattle.copy_chains.specs.Laws.{CopiedImagesAreOnTarget, CopiesHaveOneJob, CopyingSaysTheJob, DoneRunsEndChains};
ghost use Rattle.copy_chains.specs.Laws.{LooksAreOfChains, RunsAreOfChains};

use bench::Bench;
use outside::Files;

/// Nothing is done: the contract is the law of the runs of a copy.
///
/// What a run keeps, whatever it answers, makes it a run of a chain, and one that is done may end it. All runs of one copy
/// have the same job, but for the mode and the window.
pub fn copies_are_of_chains<F: Files, B: Bench>()
    ensures said { CopyingSaysTheJob }
    ensures one { CopiesHaveOneJob }
    ensures runs { RunsAreOfChains F.told B.disk }
    ensures looks { LooksAreOfChains B.disk }
    ensures done { DoneRunsEndChains B.disk }
{}

/// Nothing is done: the contract is the law of an image and its map, over the words of `build`, `map` and `copy`.
///
/// However often the copy is stopped and gone on with, once it is done the target has what was built.
pub fn copied_images_are_on_the_target<B: Bench>()
    ensures { B.told → CopiedImagesAreOnTarget B.disk }
{}
