use base_fields::{List, Name};
use conf_keys::{FlashSection, ImageSection, Kind};

/// An image that is built.
#[derive(Debug, Drop)]
pub struct ImageSpec {
    pub name: Name,
    /// The name of its own file, under the output path.
    pub full: Name,
    /// Any kind but `Ready`.
    pub kind: Kind,
    pub keys: ImageSection,
    /// The flash device that an image of kind `Flash` is for; None for other kinds.
    pub flash: Option<FlashSection>,
    /// One for each partition of a disk image or a flash image, in order, and one for an image of
    /// another kind.
    pub sources: List<Source>,
}

/// What a partition or an image of one source is filled with.
#[derive(Debug, Drop)]
pub struct Source {
    /// The full name of the file; None where a partition has no image.
    pub file: Option<Name>,
    /// The number of the image whose file it is; None where the file is taken ready.
    pub child: Option<u32>,
}
