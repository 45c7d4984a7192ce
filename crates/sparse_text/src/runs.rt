/// What a block of an image is in a sparse file.
#[derive(Clone, Copy, Debug, PartialEq, Eq)]
pub enum Content {
    /// Don't care: the padded block has no covered offset.
    Skip,
    /// Each word of 4 bytes is `word`, its first byte the lowest.
    Fill { word: u32 },
    /// Any other.
    Raw,
}

/// Neighbouring blocks of the same content, which are one chunk of a sparse file.
#[derive(Clone, Copy, Debug, PartialEq, Eq)]
pub struct Run {
    /// The number of its first block.
    pub first: u64,
    /// How many blocks it has.
    pub count: u32,
    pub content: Content,
}
