use base_fields::List;
use block_map::Range;

/// Which part of a document is read.
#[derive(Clone, Copy, Debug)]
pub enum Stage {
    /// No item has stood yet.
    Nothing,
    /// The document's opening tag hasn't stood yet.
    Front,
    /// Within the document, outside the block map.
    Inside,
    /// Within the block map.
    Map,
    /// The document is closed.
    Behind,
}

/// The sum that a text says: the place of its 64 digits, in bytes from the text's start, and what they say.
#[derive(Clone, Copy, Debug)]
pub struct Sum {
    pub at: u64,
    pub digest: [u8; 32],
}

/// What has stood in a text so far.
#[derive(Debug, Drop)]
pub struct Stood {
    pub stage: Stage,
    /// The value of ImageSize, in bytes.
    pub size: Option<u64>,
    /// The value of BlockSize, in bytes.
    pub block: Option<u32>,
    /// The value of BlocksCount.
    pub blocks: Option<u64>,
    /// The value of MappedBlocksCount.
    pub mapped: Option<u64>,
    /// Whether ChecksumType has stood.
    pub typed: bool,
    pub sum: Option<Sum>,
    /// Whether the block map has begun.
    pub begun: bool,
    pub ranges: List<Range>,
}

/// The values of a document that has all its elements.
#[derive(Clone, Copy, Debug)]
pub struct Told {
    pub size: u64,
    pub block: u32,
    pub blocks: u64,
    pub mapped: u64,
    pub sum: Sum,
}
