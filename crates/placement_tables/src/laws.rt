ghost use Rattle.placement_tables.specs.Tabled.{PlacedIsTabled};

/// The tables of an image whose placing nothing refuses are sound, whichever table it has. It does
/// nothing when it runs.
pub fn placed_is_tabled()
    ensures { PlacedIsTabled }
{}
