//! Kinds of image.
ghost use Rattle.std.specs.Prelude.{◌≡◌};
ghost use Rattle.image_plan.specs.Plans.{is_planned};

use conf_keys::Kind;

/// Whether an image of that kind has a layout: its file is composed, and what is put into a sparse image of it is what the
/// layout covers.
pub fn has_layout(kind: Kind) -> bool
    ensures { result ≡ is_planned kind }
{
    match kind {
        Kind::Hd | Kind::Plain | Kind::Flash => true,
        Kind::Sparse | Kind::Ready => false,
    }
}
