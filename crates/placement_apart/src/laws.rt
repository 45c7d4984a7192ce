ghost use Rattle.placement_apart.specs.Apart.{PlacedLiesApart};

/// Where no rule refuses an image, no offset of its layout is in two partitions, in two tables, or
/// in a partition and a table, and all of them lie within the image. It does nothing when it runs.
pub fn placed_lies_apart()
    ensures { PlacedLiesApart }
{}
