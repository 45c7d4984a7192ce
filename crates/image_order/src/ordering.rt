//! The order in which images are built.
ghost use Rattle.std.specs.Prelude.{◌≡◌, ◌-◌, ◌<◌, ◌≤◌, ◌∷◌, ◌++◌, [], OnOk, IfOk, length};
ghost use Rattle.image_order.specs.Chains.{children};
ghost use Rattle.image_order.specs.Order.{is_placed, order_among, with_image};
ghost use Rattle.image_order.specs.Path.{left, walked};

use base_fields::{List, NoMemory};
use std::alloc::Global;

// An image whose children are looked at: those before `next` are placed.
#[derive(Clone, Copy)]
struct Visit {
    image: u32,
    next: usize,
}

// The children of an image.
fn children(families: &[List<u32>], image: u32) -> &[u32]
    ensures { result.now ≡ children families.now image }
{
    match families.get(image as usize) {
        Some(children) => children.as_slice(),
        None => &[],
    }
}

fn is_placed(order: &[u32], image: u32) -> bool
    ensures { result ≡ is_placed order.now image }
{
    order.iter().any(|&placed| image == placed)
}

// Looks at the next child of the last image on the path: one that isn't placed yet goes on the
// path, where it has room for it. An image whose children were all looked at is placed.
fn go_on(
    families: &[List<u32>],
    path: &mut Vec<Visit>,
    visit: Visit,
    order: &mut List<u32>,
) -> Result<(), NoMemory>
    ensures walked { let most = length families.now - 1 in
        let before = path.old.items ++ visit ∷ [] in
        OnOk result (walked families.now most path.new.items order.new
        ≡ walked families.now most before order.old) }
    ensures left { let most = length families.now - 1 in
        let before = path.old.items ++ visit ∷ [] in
        OnOk result (left families.now most path.new.items
        < left families.now most before) }
{
    let Some(&child) = children(families, visit.image).get(visit.next) else {
        order.push(visit.image)?;
        return Ok(());
    };
    path.push(Visit {
        image: visit.image,
        next: visit.next + 1,
    })?;
    if path.len() < families.len() && !is_placed(order.as_slice(), child) {
        path.push(Visit {
            image: child,
            next: 0,
        })?;
    }
    Ok(())
}

// Places an image behind its children, unless it is placed.
fn place(
    alloc: Global,
    families: &[List<u32>],
    order: &mut List<u32>,
    image: u32,
) -> Result<(), NoMemory>
    requires { image < length families.now }
    ensures { OnOk result (order.new
        ≡ with_image families.now (length families.now) order.old image) }
{
    if is_placed(order.as_slice(), image) {
        return Ok(());
    }
    let mut path = Vec::new(alloc);
    path.push(Visit { image, next: 0 })?;
    while let Some(visit) = path.pop() {
        go_on(families, &mut path, visit, order)?;
    }
    Ok(())
}

/// All images, those of its children before each.
pub fn order_among(alloc: Global, families: &[List<u32>]) -> Result<List<u32>, NoMemory>
    requires { length families.now ≤ 64 }
    ensures { IfOk result (λ order. order ≡ order_among families.now) }
{
    let mut order = List::new(alloc);
    for image in 0..families.len() as u32 {
        place(alloc, families, &mut order, image)?;
    }
    Ok(order)
}
