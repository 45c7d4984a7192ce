ghost use Rattle.job_words.specs.Ranges.{JobsAreInRange};

/// Nothing is done: the contract is the law that the blocks, pages, units and windows of a job of words are in their ranges.
pub fn jobs_are_in_range()
    ensures { JobsAreInRange }
{}
