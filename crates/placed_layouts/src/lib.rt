//! What holds of every layout that a disk image or a plain image is given.
#![tactic(auto)]

ghost use Rattle.placed_layouts.specs.Layouts.{PlacedIsLayout};
ghost use Rattle.placed_layouts.specs.Placed.{PlacedDetermines};

/// Where no rule refuses an image, its layout is one that can be composed, covered, written and read back. It does
/// nothing when it runs.
pub fn placed_is_layout()
    ensures { PlacedIsLayout }
{}

/// An image has exactly one layout in which each partition is placed by those that are listed before it and the image
/// ends at its size, or at the least place that all this needs. It does nothing when it runs.
pub fn placed_determines()
    ensures { PlacedDetermines }
{}
