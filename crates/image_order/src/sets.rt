//! Sets of images: one bit for each number below 64.
ghost use Rattle.std.specs.Prelude.{◌≡◌, ◌<◌, ◌≤◌, IfOk, length, map, slice_index};
ghost use Rattle.image_order.specs.Sets.{IsAdded, IsSetOf, Tells, has, joined};

use base_fields::{List, NoMemory};
use std::alloc::Global;

/// Whether the set has the image.
pub fn has(set: u64, image: u32) -> bool
    requires { image < 64 }
    ensures { result ≡ has set image }
{
    set >> image & 1 == 1
}

// The set with all of another, where it has the image whose set that is.
fn joined(through: u64, middle: u32, set: u64) -> u64
    requires { middle < 64 }
    ensures { result ≡ joined through middle set }
{
    if has(set, middle) { set | through } else { set }
}

// The set with a number, where it is below 64.
fn added(set: u64, child: u32) -> u64
    ensures { IsAdded set child result }
{
    if child < 64 { set | 1 << child } else { set }
}

// The children below 64.
fn set_of(children: &[u32]) -> u64
    ensures { IsSetOf children.now result }
{
    let mut set = 0u64;
    for &child in children {
        set = added(set, child);
    }
    set
}

fn sets_of(alloc: Global, families: &[List<u32>]) -> Result<Vec<u64>, NoMemory>
    ensures { IfOk result (λ sets. Tells families.now 0 sets.items) }
{
    let mut sets = Vec::new(alloc);
    for children in families {
        sets.push(set_of(children.as_slice()))?;
    }
    Ok(sets)
}

// Adds to each set that has the image what that one's set has.
fn join(sets: &mut Vec<u64>, middle: usize)
    requires within { middle < length sets.old.items }
    requires few { length sets.old.items ≤ 64 }
    ensures { sets.new.items
        ≡ map (joined (slice_index sets.old.items middle) middle) sets.old.items }
{
    let through = sets[middle];
    for image in 0..sets.len() {
        sets[image] = joined(through, middle as u32, sets[image]);
    }
}

/// For each image the set of those to which a chain of children leads from it.
pub fn chained(alloc: Global, families: &[List<u32>]) -> Result<Vec<u64>, NoMemory>
    requires few { length families.now ≤ 64 }
    ensures { IfOk result (λ sets. Tells families.now (length families.now) sets.items) }
{
    let mut sets = sets_of(alloc, families)?;
    for middle in 0..families.len() {
        join(&mut sets, middle);
    }
    Ok(sets)
}
