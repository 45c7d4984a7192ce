ghost use Rattle.image_order.specs.Laws.{CyclesExactly, OrderPlaces, OrderStands, ReturnsExactly};

/// Nothing is done: the contract is the law that a search of as many steps as there are images
/// finds exactly the images from which a chain of children of any length leads back, and that the
/// first of these is the first image that has such a chain.
pub fn cycles_are_chains()
    ensures returns { ReturnsExactly }
    ensures first { CyclesExactly }
{}

/// Nothing is done: the contract is the law of the order of images without a cycle.
///
/// Each image stands in it once, behind all of its children; and it is the order that is found by
/// placing one image after another, each behind those of its children that aren't placed yet,
/// however many stand one below another.
pub fn images_stand_in_order()
    ensures stands { OrderStands }
    ensures places { OrderPlaces }
{}
