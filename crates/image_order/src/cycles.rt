//! The first image from which a chain of children returns.
ghost use Rattle.std.specs.Prelude.{◌≡◌, ◌≤◌, IfOk, length};
ghost use Rattle.image_order.specs.Chains.{first_cycle};

use crate::sets::{chained, has};
use base_fields::{List, NoMemory};
use std::alloc::Global;

/// The first image from which a chain of children leads to itself.
pub fn first_cycle(alloc: Global, families: &[List<u32>]) -> Result<Option<u32>, NoMemory>
    requires few { length families.now ≤ 64 }
    ensures { IfOk result (λ image. image ≡ first_cycle families.now) }
{
    let sets = chained(alloc, families)?;
    for image in 0..families.len() {
        if has(sets[image], image as u32) {
            return Ok(Some(image as u32));
        }
    }
    Ok(None)
}
