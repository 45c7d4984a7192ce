ghost use Rattle.std.specs.Prelude.{◌≡◌, ◌≤◌, ◌^◌, IfOk};
ghost use Rattle.placement_rules.specs.Bounds.{IsFrame, IsStanding, IsTerms};
ghost use Rattle.placement_rules.specs.Faults.{stand_said};
ghost use Rattle.placement_rules.specs.Places.{stood_at};

use crate::checks::{check_aligns, check_holes, check_length, check_place};
use crate::places::standing;
use crate::{Frame, PartFault, Place, Terms};
use conf_values::Hole;

/// Where a partition stands, or the first fault of its own numbers. `highest` is the greatest of the front end and of the ends
/// of all partitions listed before. Takes no memory, and looks at no other partition.
pub fn stand(frame: &Frame, terms: &Terms, holes: &[Hole], highest: u64) -> Result<Place, PartFault>
    requires frame { IsFrame frame.now }
    requires terms { IsTerms terms.now }
    requires highest { highest ≤ 2 ^ 44 }
    ensures said { result ≡ stand_said frame.now (stood_at frame.now highest terms.now holes.now) }
    ensures ends { IfOk result (IsStanding frame.now terms.now) }
{
    check_aligns(frame, terms)?;
    check_holes(holes)?;
    check_length(terms)?;
    let place = standing(frame, terms, highest);
    check_place(terms, &place)?;
    Ok(place)
}
