ghost use Rattle.build_laws.specs.Laws.{BuiltAfterwards, GraphsAreBuilt, NoneLeftOut, PlansAreServed};

/// Images that are built one after another, each from the files that those before it left, are made from the
/// files afterwards, too, where no two have the same file and none is made from its own file or from that of a
/// later one. It does nothing when it runs.
pub fn built_afterwards()
    ensures { BuiltAfterwards }
{}

/// So have the images of a graph that are built in its order: two images have two files, a file that
/// is taken ready is that of no image, and an image stands behind those that it is made of. It does
/// nothing when it runs.
pub fn graphs_are_built()
    ensures { GraphsAreBuilt }
{}

/// What is built in the order of a graph is all images of the graph, and nothing else. It does nothing
/// when it runs.
pub fn no_image_is_left_out()
    ensures { NoneLeftOut }
{}

/// The files have every byte of theirs that a layout by their lengths needs. It does nothing when it runs.
pub fn plans_are_served()
    ensures { PlansAreServed }
{}
