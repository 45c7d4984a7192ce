/// A run of bytes or of blocks: its place and its length.
#[derive(Clone, Copy, Debug, PartialEq, Eq)]
pub struct Span {
    pub at: u64,
    pub len: u64,
}

/// Which partition table an image has.
#[derive(Clone, Copy, Debug, PartialEq, Eq)]
pub enum TableKind {
    /// None.
    Bare,
    /// A master boot record, with an extended chain where there are logical partitions.
    Mbr,
    /// A GUID partition table with its protective record.
    Gpt,
    /// A GUID partition table beside up to three entries of a master boot record.
    Hybrid,
}
