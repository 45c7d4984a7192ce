ghost use Rattle.conf_laws.specs.Faults.{FirstFault, FirstTopFault};
ghost use Rattle.conf_laws.specs.Keys.{LastInnerKey, LastTopKey};
ghost use Rattle.conf_laws.specs.Accepted.{ConfigStands, FlashStands, HdStands, ImageStands};
ghost use Rattle.conf_laws.specs.Accepted.{PartitionStands, PlainStands, SparseStands};

/// Nothing is done: the contract is the law of the last key.
///
/// The last key of a name is an item that is a key of that name, with no such key behind it; where
/// there is none, no item is one. A section never is, whatever its word.
#[tactic(auto, using(crate::proofs::Last::last_inner_key, crate::proofs::Last::last_top_key))]
pub fn last_keys()
    ensures inner { LastInnerKey }
    ensures top { LastTopKey }
{}

/// Nothing is done: the contract is the law of the first fault.
///
/// The fault of a section's items is that of one of them, and those in front of it have none; where
/// there is none, no item has one.
#[tactic(auto, using(crate::proofs::First::first_is, crate::proofs::First::first_top_is))]
pub fn first_faults()
    ensures inner { FirstFault }
    ensures top { FirstTopFault }
{}

/// Nothing is done: the contract is the law of the keys that are accepted, of sections in an image.
///
/// Where a section is read, each of its keys has the value that the text of the last key of that
/// name stands for, and the default where there is no key of that name.
#[tactic(auto, using(crate::proofs::Inner::plain_stands))]
pub fn accepted_keys()
    ensures hdimage { HdStands }
    ensures android_sparse { SparseStands }
    ensures file { PlainStands }
    ensures partition { PartitionStands }
{}

/// Nothing is done: the contract is the law of the keys that are accepted, of sections at the top.
///
/// It says the same as [`accepted_keys`]. The keys of an image itself are those of one that is made.
pub fn accepted_top_keys()
    ensures config { ConfigStands }
    ensures flash { FlashStands }
    ensures image { ImageStands }
{}
