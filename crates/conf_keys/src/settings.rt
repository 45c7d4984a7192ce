//! The keys of each section, and which values they may have.
ghost use Rattle.std.specs.Prelude.{◌≡◌, is_some, ◌*◌, IsTrue};
ghost use Rattle.conf_keys.specs.Settings.{config_shape, fits, flash_shape, hd_shape, image_shape};
ghost use Rattle.conf_keys.specs.Settings.{partition_flag, partition_shape, plain_shape};
ghost use Rattle.conf_keys.specs.Settings.{ready_shape, shape_of, sparse_shape, takes_sections};

/// Whose keys are looked at.
#[derive(Clone, Copy, Debug, PartialEq, Eq)]
pub enum Section {
    /// `config`.
    Config,
    /// `flash` at the top.
    Flash,
    /// `image`, which has one of the four kinds.
    Image,
    /// `image`, which has none of them and is read for syntax alone.
    Ready,
    /// `hdimage`, whose sectors may have 4096 bytes where it is wide, and have this many.
    Hd { wide: bool, sector: u32 },
    /// The kind `flash` of an image.
    Device,
    /// `android-sparse`.
    Sparse,
    /// `file`.
    Plain,
    /// `partition`.
    Partition,
}

/// What the value of a key may be.
#[derive(Clone, Copy, Debug, PartialEq, Eq)]
pub enum Shape {
    /// Any value or list: it is read and has no effect.
    Anything,
    Text,
    /// At least so many bytes.
    Size { least: u64 },
    Number { least: u64, most: u64 },
    /// The size of a block: a power of two.
    Power { least: u32, most: u32 },
    Sector { wide: bool },
    Truth,
    Identifier,
    PartitionType,
    Table,
    Holes,
}

impl Section {
    /// Whether a section may stand inside.
    pub(crate) fn takes_sections(self) -> bool
        ensures { result ≡ takes_sections self }
    {
        matches!(self, Section::Config | Section::Image | Section::Ready)
    }

    /// What the value of this key may be; None where there is no such key.
    pub(crate) fn shape(self, key: &str) -> Option<Shape>
        ensures { result ≡ shape_of self key.now }
    {
        match self {
            Section::Config => config_shape(key),
            Section::Flash => flash_shape(key),
            Section::Image => image_shape(key),
            Section::Ready => ready_shape(key),
            Section::Hd { wide, sector } => hd_shape(wide, sector, key),
            Section::Device => None,
            Section::Sparse => sparse_shape(key),
            Section::Plain => plain_shape(key),
            Section::Partition => partition_shape(key),
        }
    }
}

fn config_shape(key: &str) -> Option<Shape>
    ensures { result ≡ config_shape key.now }
{
    match key {
        "inputpath" | "outputpath" => Some(Shape::Text),
        _ => Some(Shape::Anything),
    }
}

fn flash_shape(key: &str) -> Option<Shape>
    ensures { result ≡ flash_shape key.now }
{
    match key {
        "pebsize" => Some(Shape::Size { least: 1 }),
        "numpebs" => Some(Shape::Number {
            least: 1,
            most: u64::MAX,
        }),
        _ => Some(Shape::Anything),
    }
}

fn image_shape(key: &str) -> Option<Shape>
    ensures { result ≡ image_shape key.now }
{
    match key {
        "size" => Some(Shape::Size { least: 0 }),
        "flashtype" => Some(Shape::Text),
        "name" | "mountpoint" | "srcpath" | "empty" | "temporary" => Some(Shape::Anything),
        _ => None,
    }
}

fn ready_shape(key: &str) -> Option<Shape>
    ensures { result ≡ ready_shape key.now }
{
    match key {
        "exec-pre" | "exec-post" => None,
        _ => Some(Shape::Anything),
    }
}

fn hd_shape(wide: bool, sector: u32, key: &str) -> Option<Shape>
    ensures { result ≡ hd_shape wide sector key.now }
{
    match key {
        "align" => Some(Shape::Size { least: 1 }),
        "partition-table-type" => Some(Shape::Table),
        "extended-partition" => Some(Shape::Number { least: 0, most: 4 }),
        "disk-signature" => Some(Shape::Number {
            least: 0,
            most: 0xFFFF_FFFF,
        }),
        "disk-uuid" => Some(Shape::Identifier),
        "gpt-location" => Some(Shape::Size {
            least: 2 * u64::from(sector),
        }),
        "gpt-no-backup" | "fill" => Some(Shape::Truth),
        "sector-size" => Some(Shape::Sector { wide }),
        _ => None,
    }
}

fn sparse_shape(key: &str) -> Option<Shape>
    ensures { result ≡ sparse_shape key.now }
{
    match key {
        "image" => Some(Shape::Text),
        "block-size" => Some(Shape::Power {
            least: 4096,
            most: 1_048_576,
        }),
        _ => None,
    }
}

fn plain_shape(key: &str) -> Option<Shape>
    ensures { result ≡ plain_shape key.now }
{
    match key {
        "name" => Some(Shape::Text),
        _ => None,
    }
}

fn partition_shape(key: &str) -> Option<Shape>
    ensures { result ≡ partition_shape key.now }
{
    match key {
        "offset" | "size" => Some(Shape::Size { least: 0 }),
        "align" => Some(Shape::Size { least: 1 }),
        "image" => Some(Shape::Text),
        "partition-type" => Some(Shape::Number {
            least: 1,
            most: 255,
        }),
        "partition-uuid" => Some(Shape::Identifier),
        "partition-type-uuid" => Some(Shape::PartitionType),
        "holes" => Some(Shape::Holes),
        _ => partition_flag(key),
    }
}

fn partition_flag(key: &str) -> Option<Shape>
    ensures { result ≡ partition_flag key.now }
{
    match key {
        "fill" | "autoresize" | "bootable" => Some(Shape::Truth),
        "read-only" | "hidden" | "no-automount" | "in-partition-table" => Some(Shape::Truth),
        _ => None,
    }
}

impl Shape {
    /// Whether a single value may have this text.
    pub(crate) fn fits(self, text: &str) -> bool
        ensures { result ≡ fits self text.now }
    {
        let bytes = text.as_bytes();
        match self {
            Shape::Anything | Shape::Text => true,
            Shape::Size { least } => conf_values::size_from(bytes, least).is_some(),
            Shape::Number { least, most } => conf_values::number_between(
                bytes, least, most,
            ).is_some(),
            Shape::Power { least, most } => conf_values::power_between(
                bytes, least, most,
            ).is_some(),
            Shape::Sector { wide } => conf_values::sector(bytes, wide).is_some(),
            Shape::Truth => conf_values::truth(text).is_some(),
            Shape::Identifier => conf_values::identifier(text).is_some(),
            Shape::PartitionType => conf_values::partition_type(text).is_some(),
            Shape::Table => conf_values::table(text).is_some(),
            Shape::Holes => false,
        }
    }
}
