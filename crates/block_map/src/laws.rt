ghost use Rattle.block_map.specs.Laws.{BelowTheCount, DigestsBegin, DigestsEnd, DigestsGoOn, OneMap, RangesAreCut, UnitsAreMapped};
ghost use Rattle.block_map.specs.UnitLaws.{FirstUnitsJoin, MappedIsInAUnit, MapsBegin, MapsGrow, NumbersAreUnits, RangesGrow, RangesHaveUnits, RangesMakeMaps, UnitsAreApart, UnitsAreUnits, UnitsHaveNumbers, UnitsJoin};

/// Nothing is done: the contract is the law of where a map's ranges end.
///
/// A block begins below the image's size exactly where its number is below the size in blocks, rounded up.
pub fn ranges_end_below_the_count()
    ensures { BelowTheCount }
{}

/// Nothing is done: the contract is the law that a map becomes that of the image by its digests.
///
/// Where the digest of each range of a map from a cover is set in turn to SHA-256 of the range's bytes, the last
/// of these maps is the map of the image.
pub fn digests_make_the_map()
    ensures begin { DigestsBegin }
    ensures go_on { DigestsGoOn }
    ensures end { DigestsEnd }
{}

/// Nothing is done: the contract is the law that a covered image has one map.
pub fn images_have_one_map()
    ensures { OneMap }
{}

/// Nothing is done: the contract is the law that a map's units are its mapped bytes.
///
/// None is empty or larger than a unit, they ascend and don't meet, and an offset is in one of them exactly where
/// it is below the image's size and its block is in a range. So are those of one range its bytes.
pub fn units_are_the_mapped_bytes()
    ensures all { UnitsAreMapped }
    ensures range { RangesAreCut }
{}

/// Nothing is done: the contract is the law of how a map is built range by range.
///
/// A map without ranges is a map; it stays one where a range is put behind its last one. Ranges alone
/// may be put together before the size is known: then only the last one's end is looked at.
pub fn maps_grow_by_ranges()
    ensures begin { MapsBegin }
    ensures grow { MapsGrow }
    ensures ranges { RangesGrow }
    ensures make { RangesMakeMaps }
{}

/// Nothing is done: the contract is the law that the bytes of a range's units are the range's.
///
/// Those of its first `j` units are its first `j * unit` bytes, or all.
pub fn units_join_to_ranges()
    ensures first { FirstUnitsJoin }
    ensures all { UnitsJoin }
{}

/// Nothing is done: the contract is the law of the numbers of units.
///
/// A unit is its range's by its number from the range's first on, and each such number is one of the
/// range's. Each range has units, so the numbers of the first ones rise, from 0 to the count.
pub fn units_have_numbers()
    ensures of_range { UnitsHaveNumbers }
    ensures of_number { NumbersAreUnits }
    ensures rise { RangesHaveUnits }
{}

/// Nothing is done: the contract is the law of the unit of a number.
///
/// It has bytes, a unit at most, which end within the image and are mapped; it ends before each later
/// one begins; and each mapped offset is in one.
pub fn units_by_number()
    ensures bounds { UnitsAreUnits }
    ensures apart { UnitsAreApart }
    ensures found { MappedIsInAUnit }
{}
