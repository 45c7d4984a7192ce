//! One partition in its place, by the numbers of those before it.
ghost use Rattle.std.specs.Prelude.{◌≡◌, ◌≤◌, ◌^◌, None, IfOk, IfErr, OnOk};
ghost use Rattle.placement_rules.specs.Bounds.{IsFrame, IsTerms};
ghost use Rattle.placement_rules.specs.Faults.{overlap, own_fault, part_fault};
ghost use Rattle.placement_rules.specs.Places.{highest, stood_at, stood_of};
ghost use Rattle.placement_walk.specs.Walked.{IsBehind, IsHeldAt, IsStepFault};

use crate::StepFault;
use base_fields::{List, NoMemory};
use conf_values::Hole;
use placement_claims::{Claim, Earlier, met};
use placement_rules::{Frame, PartFault, Terms, stand};
use std::alloc::Global;

/// The partitions listed before, and one behind them that stands by their numbers and meets none of them.
pub fn step(
    alloc: Global,
    frame: &Frame,
    earlier: Earlier,
    terms: &Terms,
    holes: &[Hole],
) -> Result<Earlier, StepFault>
    requires frame { IsFrame frame.now }
    requires terms { IsTerms terms.now }
    ensures ok { IfOk result (IsBehind frame.now earlier (stood_of frame.now earlier terms.now holes.now)) }
    ensures err { IfErr result (IsStepFault
        (part_fault frame.now earlier (stood_of frame.now earlier terms.now holes.now))) }
{
    let claim = hold(alloc, frame, terms, holes, highest(frame, &earlier))?;
    check_meeting(frame, &earlier, &claim)?;
    let more = earlier.with(claim)?;
    Ok(more)
}

/// The claim of a partition that no fault of its own refuses.
fn hold(
    alloc: Global,
    frame: &Frame,
    terms: &Terms,
    holes: &[Hole],
    highest: u64,
) -> Result<Claim, StepFault>
    requires frame { IsFrame frame.now }
    requires terms { IsTerms terms.now }
    requires highest { highest ≤ 2 ^ 44 }
    ensures ok { IfOk result (IsHeldAt frame.now (stood_at frame.now highest terms.now holes.now)) }
    ensures err { IfErr result (IsStepFault (own_fault frame.now (stood_at frame.now highest terms.now holes.now))) }
{
    match stand(frame, terms, holes, highest) {
        Ok(place) => {
            let claim = Claim::new(alloc, *terms, copy_holes(alloc, holes)?, place)?;
            Ok(claim)
        }
        Err(fault) => Err(StepFault::Part(fault)),
    }
}

fn copy_holes(alloc: Global, holes: &[Hole]) -> Result<List<Hole>, NoMemory>
    ensures { IfOk result (λ copy. copy ≡ holes.now) }
{
    Ok(List::from_vec(Vec::from_slice(alloc, holes)?))
}

/// The greatest of the front end and of the ends of those listed before.
fn highest(frame: &Frame, earlier: &Earlier) -> u64
    requires { IsFrame frame.now }
    ensures exact { result ≡ highest frame.now earlier.now }
    ensures bounded { result ≤ 2 ^ 44 }
{
    frame.front.max(earlier.greatest_end())
}

/// Refuses a partition that meets a table or an earlier one.
fn check_meeting(frame: &Frame, earlier: &Earlier, claim: &Claim) -> Result<(), StepFault>
    requires { IsFrame frame.now }
    ensures ok { OnOk result (overlap frame.now earlier.now claim.now ≡ None) }
    ensures err { IfErr result (IsStepFault (overlap frame.now earlier.now claim.now)) }
{
    match met(frame, earlier, claim) {
        Some(meeting) => Err(StepFault::Part(PartFault::Meets(meeting))),
        None => Ok(()),
    }
}
