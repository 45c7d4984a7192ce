ghost use Rattle.sparse_reader.specs.Laws.{ChunksAreFound, ChunksComeInOrder, OneListOfChunks, ViewsAreOfChunks};

/// Chunks that stand end to end are those that are found one after another. It does nothing when it
/// runs.
pub fn chunks_are_found()
    ensures { ChunksAreFound }
{}

/// So many chunks from one place on are one list. It does nothing when it runs.
pub fn one_list_of_chunks()
    ensures { OneListOfChunks }
{}

/// A file has a view exactly where it is a header and a list of its chunks, and the view has their
/// counts. It does nothing when it runs.
pub fn views_are_of_chunks()
    ensures { ViewsAreOfChunks }
{}

/// What is found at each cursor, from the first one on, are the chunks of such a file in order, and
/// then nothing. It does nothing when it runs.
pub fn chunks_come_in_order()
    ensures { ChunksComeInOrder }
{}
