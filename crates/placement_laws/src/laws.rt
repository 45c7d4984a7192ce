ghost use Rattle.placement_laws.specs.Firsts.{FirstsExactly};
ghost use Rattle.placement_laws.specs.Laws.{NoneEarlier, PlacedExactly};
ghost use Rattle.placement_laws.specs.Terms.{TermsExactly};

/// The partitions of an image stand in the one way in which each is placed by what is listed before
/// it: at its offset, or at the least multiple of its align that isn't below the front end nor below
/// the end of any of these. It does nothing when it runs.
pub fn partitions_are_placed()
    ensures { PlacedExactly }
{}

/// A partition without an offset could begin at no lower multiple of its align: each is below the
/// front end or below the end of a partition that is listed before it. It does nothing when it runs.
pub fn no_place_is_earlier()
    ensures { NoneEarlier }
{}

/// What the rules look at of each partition of a disk image, by its number in the list: its keys, the
/// align that counts, whether the table has it, whether it is logical, whether its sectors are of 32
/// bits and whether it is the last. It does nothing when it runs.
pub fn terms_by_number()
    ensures { TermsExactly }
{}

/// The refusal of partitions is that of the first one that is refused, behind all that are listed
/// before it, and there is none exactly where none of them is. It does nothing when it runs.
pub fn first_refusals_come_first()
    ensures { FirstsExactly }
{}
