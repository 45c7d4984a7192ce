ghost use Rattle.sparse_laws.specs.Laws.{BlocksAreBytes, SparseTextIsRead};

/// The sparse file of an image is read as its chunks, each with its kind, its blocks, the place of its
/// data and its word, and they expand to the image. It does nothing when it runs.
pub fn sparse_text_is_read()
    ensures read { SparseTextIsRead }
    ensures bytes { BlocksAreBytes }
{}
