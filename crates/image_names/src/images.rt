ghost use Rattle.std.specs.Prelude.{◌≡◌};
ghost use Rattle.image_names.specs.Images.{counted_parts, is_built, only_kind};

use conf_keys::{ImageSection, Kind, PartitionSection};

/// The kind of an image that has exactly one section other than `partition`.
pub fn only_kind(image: &ImageSection) -> Option<Kind>
    ensures { result ≡ only_kind image.now.kinds }
{
    match image.kinds.as_slice() {
        [kind] => Some(*kind),
        _ => None,
    }
}

pub fn is_built(image: &ImageSection) -> bool
    ensures { result ≡ is_built image.now }
{
    match only_kind(image) {
        Some(Kind::Hd | Kind::Flash | Kind::Sparse | Kind::Plain) => true,
        Some(Kind::Ready) | None => false,
    }
}

/// The partitions that rules look at.
pub fn counted_parts(image: &ImageSection) -> &[PartitionSection]
    ensures { result.now ≡ counted_parts image.now }
{
    match only_kind(image) {
        Some(Kind::Sparse | Kind::Plain) => &[],
        _ => image.parts.as_slice(),
    }
}
