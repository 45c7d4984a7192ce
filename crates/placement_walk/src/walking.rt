ghost use Rattle.std.specs.Prelude.{◌≡◌, ◌<◌, [], IfOk, IfErr, length, slice_index_or};
ghost use Rattle.placement_rules.specs.Bounds.{AreTerms, IsFrame};
ghost use Rattle.placement_rules.specs.Faults.{first_fault};
ghost use Rattle.placement_rules.specs.Places.{stood_from};
ghost use Rattle.placement_rules.specs.Terms.{holes_of};
ghost use Rattle.placement_walk.specs.Walked.{IsWalkFault, AreWalked};

use crate::holding::step;
use crate::{StepFault, WalkFault};
use conf_keys::Kind;
use conf_values::Hole;
use image_specs::ImageSpec;
use placement_claims::Earlier;
use placement_rules::{Frame, Terms};
use std::alloc::Global;

/// All partitions of an image in their places, by what the rules look at of each, or the first that can't stand and
/// why.
pub fn walk(
    alloc: Global,
    spec: &ImageSpec,
    frame: &Frame,
    terms: &[Terms],
) -> Result<Earlier, WalkFault>
    requires frame { IsFrame frame.now }
    requires terms { AreTerms terms.now }
    requires holes { length terms.now ≡ length (holes_of spec.now) }
    ensures ok { IfOk result (AreWalked frame.now (stood_from frame.now [] terms.now (holes_of spec.now))) }
    ensures err { IfErr result (IsWalkFault
        (first_fault frame.now [] (stood_from frame.now [] terms.now (holes_of spec.now)))) }
{
    let mut earlier = Earlier::new(alloc);
    for number in 0..terms.len() {
        earlier = match step(
            alloc,
            frame,
            earlier,
            &terms[number],
            holes_at(spec, number),
        ) {
            Ok(earlier) => earlier,
            Err(StepFault::Part(fault)) => return Err(WalkFault::Part { number, fault }),
            Err(StepFault::NoMemory) => return Err(WalkFault::NoMemory),
        };
    }
    Ok(earlier)
}

/// The holes of a partition, by its number.
fn holes_at(spec: &ImageSpec, number: usize) -> &[Hole]
    requires { number < length (holes_of spec.now) }
    ensures { result.now ≡ slice_index_or (holes_of spec.now) number [] }
{
    match spec.kind {
        Kind::Hd => spec.keys.parts.as_slice()[number].holes.as_slice(),
        _ => &[],
    }
}
