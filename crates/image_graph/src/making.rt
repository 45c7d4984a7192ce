ghost use Rattle.std.specs.Prelude.{◌≡◌, ◌≤◌, IfOk, length};
ghost use Rattle.std.specs.Prelude.{All};
ghost use Rattle.conf_keys.specs.Within.{IsWithin};
ghost use Rattle.image_names.specs.Names.{AreDisjoint};
ghost use Rattle.image_specs.specs.IsSpec.{IsSpec};
ghost use Rattle.image_specs.specs.Specs.{full_names};
ghost use Rattle.image_graph.specs.Graph.{Answers, graph_of, ordered};
ghost use Rattle.image_graph.specs.IsGraph.{IsGraph};

use crate::Graph;
use crate::children::families_of;
use crate::clashes::file_clash;
use base_fields::{List, Name};
use conf_keys::Conf;
use image_names::{GraphFault, check_sections};
use image_order::{OrderFault, build_order};
use image_specs::{ImageSpec, specs_of};
use std::alloc::Global;

// The images in their order.
fn ordered(alloc: Global, specs: List<ImageSpec>) -> Result<Graph, GraphFault>
    requires { length specs ≤ 64 }
    ensures { Answers (ordered specs) result }
{
    let families = families_of(alloc, specs.as_slice())?;
    match build_order(alloc, families.as_slice()) {
        Ok(order) => Ok(Graph { order, specs }),
        Err(OrderFault::Cycle { image }) => Err(GraphFault::Cycle {
            name: Name::of(alloc, specs.as_slice()[image as usize].name.text())?,
        }),
        Err(OrderFault::NoMemory) => Err(GraphFault::NoMemory),
    }
}

/// The images that are built, what each is made of, and their order. Takes memory.
pub fn graph(alloc: Global, conf: &Conf) -> Result<Graph, GraphFault>
    ensures answers { Answers (graph_of conf.now) result }

    // No two names of images and no two of their files are the same, no file of one is taken ready,
    // and each image stands once in the order, behind its children.
    ensures sound { IfOk result IsGraph }
    // No file of an image is a text that was read.
    ensures texts { IfOk result (λ graph. AreDisjoint (full_names graph.specs) conf.now.texts) }
    // Of a configuration within its limits, each image holds what its placement rests on.
    ensures specs { IsWithin conf.now → IfOk result (λ graph. All IsSpec graph.specs) }
{
    check_sections(alloc, conf)?;
    let specs = specs_of(alloc, conf)?;
    file_clash(alloc, conf.texts.as_slice(), specs.as_slice())?;
    Ok(ordered(alloc, specs)?)
}
