ghost use Rattle.std.specs.Prelude.{◌≡◌, []};
ghost use Rattle.conf_keys.specs.Sections.{hd_values, plain_values, sparse_values};
ghost use Rattle.conf_keys.specs.Within.{IsHdWithin, IsSparseWithin};

use base_fields::{List, Name, Pair, TableKind};
use conf_values::Hole;

/// The variables of a configuration. The first pair with a name counts.
pub type Vars = List<Pair>;

/// What the texts of a configuration say.
#[derive(Debug, Drop)]
pub struct Conf {
    /// The path that ready files stand under; empty where there is none.
    pub input: Name,
    /// The path that built images stand under; empty where there is none.
    pub output: Name,
    pub flashes: List<FlashSection>,
    pub images: List<ImageSection>,
    /// One name for each text that was read, in the order of reading, the main text first.
    pub texts: List<Name>,
}

/// What a section of an image makes of it.
#[derive(Clone, Copy, Debug, PartialEq, Eq)]
pub enum Kind {
    /// A disk image, `hdimage`.
    Hd,
    /// An image for a flash device, `flash`.
    Flash,
    /// An Android sparse image, `android-sparse`.
    Sparse,
    /// One file, `file`.
    Plain,
    /// Any other section: its file is made elsewhere.
    Ready,
}

/// A kind of flash device.
#[derive(Debug, Drop)]
pub struct FlashSection {
    pub name: Name,
    /// The bytes of an erase block.
    pub pebsize: u64,
    /// How many erase blocks there are.
    pub numpebs: u64,
}

/// An image. `hd`, `sparse` and `plain` hold the defaults where it hasn't that section, and the
/// keys of the last where it has several.
#[derive(Debug, Drop)]
pub struct ImageSection {
    pub name: Name,
    /// One kind for each section other than `partition`, in order.
    pub kinds: List<Kind>,
    /// In bytes.
    pub size: Option<u64>,
    /// The name of the kind of flash device.
    pub flashtype: Option<Name>,
    pub hd: HdKeys,
    pub sparse: SparseKeys,
    pub plain: PlainKeys,
    pub parts: List<PartitionSection>,
}

/// The paths of `config`; None where the section hasn't that key.
#[derive(Debug, Drop)]
pub struct ConfigKeys {
    pub inputpath: Option<Name>,
    pub outputpath: Option<Name>,
}

/// The keys of an image itself.
#[derive(Debug, Drop)]
pub struct ImageKeys {
    /// In bytes.
    pub size: Option<u64>,
    pub flashtype: Option<Name>,
}

/// The keys of `hdimage`. Places and sizes are in bytes.
#[derive(Clone, Copy, Debug, PartialEq, Eq)]
pub struct HdKeys {
    pub align: Option<u64>,
    pub partition_table_type: TableKind,
    /// The number of the extended entry, 1 to 4, or 0 for none of the user's choice.
    pub extended_partition: u32,
    pub disk_signature: u32,
    /// In the order of RFC 9562.
    pub disk_uuid: Option<[u8; 16]>,
    /// Where the partition entries begin.
    pub gpt_location: u64,
    pub gpt_no_backup: bool,
    pub fill: bool,
    /// 512 or 4096.
    pub sector_size: u32,
}

impl HdKeys {
    /// The keys of an image without a section `hdimage`: those of one without items.
    pub fn defaults() -> HdKeys
        ensures keys { result ≡ hd_values [] }
        ensures within { IsHdWithin result }
    {
        HdKeys {
            align: None,
            partition_table_type: TableKind::Mbr,
            extended_partition: 0,
            disk_signature: 0,
            disk_uuid: None,
            gpt_location: 1024,
            gpt_no_backup: false,
            fill: false,
            sector_size: 512,
        }
    }
}

/// The keys of `android-sparse`.
#[derive(Debug, Drop)]
pub struct SparseKeys {
    /// The image that is put into the sparse one.
    pub image: Option<Name>,
    /// In bytes.
    pub block_size: u32,
}

impl SparseKeys {
    /// The keys of an image without a section `android-sparse`: those of one without items.
    pub fn defaults() -> SparseKeys
        ensures keys { result ≡ sparse_values [] }
        ensures within { IsSparseWithin result }
    {
        SparseKeys {
            image: None,
            block_size: 4096,
        }
    }
}

/// The keys of `file`.
#[derive(Debug, Drop)]
pub struct PlainKeys {
    /// The name of the file; the image's own where there is none.
    pub name: Option<Name>,
}

impl PlainKeys {
    /// The keys of an image without a section `file`: those of one without items.
    pub fn defaults() -> PlainKeys
        ensures { result ≡ plain_values [] }
    {
        PlainKeys { name: None }
    }
}

/// A partition. Places and sizes are in bytes, identifiers in the order of RFC 9562.
#[derive(Debug, Drop)]
pub struct PartitionSection {
    pub name: Name,
    pub offset: Option<u64>,
    pub size: Option<u64>,
    pub align: Option<u64>,
    /// The image or the file that it holds.
    pub image: Option<Name>,
    pub fill: bool,
    pub autoresize: bool,
    pub bootable: bool,
    pub read_only: bool,
    pub hidden: bool,
    pub no_automount: bool,
    pub in_partition_table: bool,
    /// The type in a master boot record.
    pub partition_type: Option<u32>,
    pub partition_uuid: Option<[u8; 16]>,
    /// The type in a GUID partition table.
    pub partition_type_uuid: [u8; 16],
    pub holes: List<Hole>,
}
