//! What the rules look at, and a place.
use base_fields::TableKind;

/// What the rules look at of an image as a whole. Places and sizes are in bytes.
#[derive(Clone, Copy, Debug, PartialEq, Eq)]
pub struct Frame {
    pub table: TableKind,
    /// The bytes of a sector, 512 or 4096.
    pub sector: u32,
    /// The end of what the tables occupy in front.
    pub front: u64,
    /// Where the entries of a GUID partition table begin.
    pub entries_at: u64,
    /// Whether the image ends in a backup of a GUID partition table.
    pub backup: bool,
    /// The key `size` of the image.
    pub size: Option<u64>,
}

/// What the rules look at of a partition. Places and sizes are in bytes.
#[derive(Clone, Copy, Debug, PartialEq, Eq)]
pub struct Terms {
    pub offset: Option<u64>,
    pub size: Option<u64>,
    pub align: u64,
    /// The length of its file, 0 where it has none.
    pub len: u64,
    pub autoresize: bool,
    /// Whether the image's table has it.
    pub tabled: bool,
    /// Whether it stands in the extended partition.
    pub logical: bool,
    /// Whether the master boot record or a boot record has it, whose numbers of sectors are of 32 bits.
    pub narrow: bool,
    /// Whether it is the last one listed.
    pub last: bool,
}

/// Where a partition stands, in bytes.
#[derive(Clone, Copy, Debug, PartialEq, Eq)]
pub struct Place {
    pub at: u64,
    pub size: u64,
    /// Where the boot record of a logical partition stands.
    pub head: Option<u64>,
}
