//! The children of each image.
ghost use Rattle.std.specs.Prelude.{◌≡◌, IfOk};
ghost use Rattle.image_graph.specs.Children.{children_of, families_of};

use base_fields::{List, NoMemory};
use image_specs::ImageSpec;
use std::alloc::Global;

fn children_of(alloc: Global, spec: &ImageSpec) -> Result<List<u32>, NoMemory>
    ensures { IfOk result (λ children. children ≡ children_of spec.now) }
{
    let mut children = List::new(alloc);
    for source in spec.sources.as_slice() {
        if let Some(child) = source.child {
            children.push(child)?;
        }
    }
    Ok(children)
}

/// The numbers of the children of each image, in the order of its sources. Takes memory.
pub fn families_of(alloc: Global, specs: &[ImageSpec]) -> Result<List<List<u32>>, NoMemory>
    ensures { IfOk result (λ families. families ≡ families_of specs.now) }
{
    let mut families = List::new(alloc);
    for spec in specs {
        families.push(children_of(alloc, spec)?)?;
    }
    Ok(families)
}
