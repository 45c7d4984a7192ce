ghost use Rattle.std.specs.Prelude.{◌≡◌, ◌≤◌, IfErr, IfOk, length, []};
ghost use Rattle.std.specs.List.{range_with_len};
ghost use Rattle.image_order.specs.Chains.{AreNumbered, HasNone};
ghost use Rattle.image_order.specs.Making.{Answers, IsCycleOf, order_of};
ghost use Rattle.image_order.specs.Order.{IsOrder, Places};

use crate::cycles::first_cycle;
use crate::ordering::order_among;
use base_fields::{List, NoMemory};
use std::alloc::Global;

/// Why images have no order.
#[derive(Clone, Copy, Debug, PartialEq, Eq)]
pub enum OrderFault {
    /// A chain of children leads from that image to itself. It is the first one.
    Cycle { image: u32 },
    /// Memory was refused.
    NoMemory,
}

impl From<NoMemory> for OrderFault {
    ghost use Rattle.std.specs.Prelude.{◌≡◌};
    ghost use Rattle.image_order.specs.declared.making.OrderFault.TheVariants.{NoMemory};

    ghost from_gives = { λ _ fault. fault ≡ NoMemory };

    fn from(_: NoMemory) -> Self {
        OrderFault::NoMemory
    }
}

/// All images, each behind its children: found by placing one image after another, each behind
/// those of its children that aren't placed yet. `families` has the children of each image, in
/// the order in which they are placed. Takes memory.
pub fn build_order(alloc: Global, families: &[List<u32>]) -> Result<List<u32>, OrderFault>
    requires few { length families.now ≤ 64 }
    ensures answers { Answers (order_of families.now) result }
    ensures cycle { IfErr result (IsCycleOf families.now) }
    ensures no_cycle { IfOk result (λ order. HasNone families.now) }
    ensures in_order { AreNumbered families.now → IfOk result (IsOrder families.now) }
    ensures placed { AreNumbered families.now →
        IfOk result (Places families.now (range_with_len 0 (length families.now)) []) }
{
    match first_cycle(alloc, families)? {
        Some(image) => Err(OrderFault::Cycle { image }),
        None => Ok(order_among(alloc, families)?),
    }
}
