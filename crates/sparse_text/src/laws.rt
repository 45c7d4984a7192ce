ghost use Rattle.sparse_text.specs.Laws.{OneListOfRuns, OneSparseText, RunsExpand};

/// An image, a cover and a block size have one list of chunks and one sparse file. It does nothing when it runs.
pub fn one_sparse_text()
    ensures runs { OneListOfRuns }
    ensures text { OneSparseText }
{}

/// The chunks of an image are all its blocks, and each says what its blocks are. It does nothing when it runs.
pub fn runs_expand()
    ensures { RunsExpand }
{}
