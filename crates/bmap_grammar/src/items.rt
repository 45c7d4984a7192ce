use block_map::Range;

/// A value in a part of a text.
#[derive(Clone, Copy, Debug)]
pub struct Held {
    /// How many bytes stand in front of it.
    pub at: usize,
    /// How many bytes it has.
    pub count: usize,
    /// How many bytes the whole part has.
    pub len: usize,
}

/// The opening tag of a range.
#[derive(Clone, Copy, Debug)]
pub struct Head {
    pub digest: Option<[u8; 32]>,
    /// How many bytes it has.
    pub len: usize,
}

/// One of the four elements whose value is a number.
#[derive(Clone, Copy, Debug)]
pub enum Field {
    ImageSize,
    BlockSize,
    BlocksCount,
    MappedBlocksCount,
}

/// An item of a document.
#[derive(Clone, Copy, Debug)]
pub enum Item {
    /// White space, or a comment.
    Blank,
    Declaration,
    /// The opening tag of a document of version 2.0.
    Start,
    /// The same of another version.
    OtherStart,
    /// An element whose value is a number.
    Number(Field, u64),
    /// The element that names SHA-256.
    ChecksumType,
    /// The same element with another name in it.
    OtherType,
    /// The element with the text's sum: how many bytes stand in the item before its digits, and what they say.
    Checksum(usize, [u8; 32]),
    /// The opening tag of the block map.
    MapStart,
    Range(Range),
    /// The closing tag of the block map.
    MapEnd,
    /// The closing tag of the document.
    End,
}

/// The item at the front of a text, and how many bytes it has.
#[derive(Clone, Copy, Debug)]
pub struct Piece {
    pub item: Item,
    pub len: usize,
}
