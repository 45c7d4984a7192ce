use base_fields::{List, Name, Span, TableKind};
use extended_chain::LogicalSpec;
use gpt_table::GptSpec;
use mbr_table::{MbrEntry, MbrSpec};

/// An image as it is to be made. Places and lengths are in bytes.
#[derive(Debug, Drop)]
pub struct Layout {
    /// The name of its own file.
    pub file: Name,
    pub size: u64,
    /// What stands where no table and no file has a byte.
    pub fill: u8,
    /// Whether all of it is covered.
    pub whole: bool,
    pub table: TableKind,
    /// The bytes of a sector, 512 or 4096.
    pub sector: u32,
    /// The master boot record; None where there is no table.
    pub mbr: Option<MbrSpec>,
    /// The entries behind the protective one, of a hybrid alone.
    pub hybrid: List<MbrEntry>,
    /// The logical partitions, each of which has a boot record.
    pub logical: List<LogicalSpec>,
    /// The GUID partition table, of gpt and hybrid alone.
    pub gpt: Option<GptSpec>,
    /// In the order of the text.
    pub parts: List<Placed>,
}

/// A partition, or the one file of an image, in its place.
#[derive(Debug, Drop)]
pub struct Placed {
    pub name: Name,
    /// The full name of its file; None where it has none.
    pub source: Option<Name>,
    /// Where it begins in the image.
    pub at: u64,
    pub size: u64,
    /// The length of its file, 0 where it has none.
    pub len: u64,
    /// Whether all that it claims is covered, and not its file alone.
    pub whole: bool,
    /// The runs of its file that it leaves to others, each at its offset in the file.
    pub holes: List<Span>,
}
