//! What refuses a partition by its own numbers.
ghost use Rattle.std.specs.Prelude.{◌≡◌, ◌+◌, ◌<◌, ◌≤◌, ◌^◌, [], OnOk, IfErr, option_map};
ghost use Rattle.placement_rules.specs.Bounds.{IsFrame, IsRoundable, IsTerms, IsTooLong, Passes, place_fault};
ghost use Rattle.placement_rules.specs.Faults.{above, bad_autoresize, bad_holes, below, least_size, misaligned, no_size, off_multiple, too_far, too_large};
ghost use Rattle.placement_rules.specs.declared.faults.PartFault.TheVariants as fault;

use crate::{Frame, PartFault, Place, Terms};
use conf_values::{Hole, MOST_SIZE};

/// The greatest number of a sector, and of sectors.
const MOST_SECTORS: u64 = 0xFFFF_FFFF;

/// A number that is there and isn't a multiple.
pub fn off_multiple(number: Option<u64>, to: u64) -> Option<u64>
    requires { 1 ≤ to }
    ensures { result ≡ off_multiple number to }
{
    match number {
        Some(number) if number % to != 0 => Some(number),
        _ => None,
    }
}

/// A number that is there and lies below another.
fn below(number: Option<u64>, least: u64) -> Option<u64>
    ensures { result ≡ below number least }
{
    match number {
        Some(number) if number < least => Some(number),
        _ => None,
    }
}

/// Refuses the number at fault, where there is one.
fn refuse(number: Option<u64>, align: u64) -> Result<(), PartFault>
    ensures { Passes (option_map (λ n. fault.Misaligned n align) number) result }
{
    match number {
        Some(value) => Err(PartFault::Misaligned { value, align }),
        None => Ok(()),
    }
}

/// Refuses an offset, an align or a size that isn't a multiple of what it has to be.
pub(crate) fn check_aligns(frame: &Frame, terms: &Terms) -> Result<(), PartFault>
    requires frame { IsFrame frame.now }
    requires terms { IsTerms terms.now }
    ensures { Passes (misaligned frame.now terms.now) result }
{
    let sector = u64::from(frame.sector);
    refuse(off_multiple(terms.offset, terms.align), terms.align)?;
    if terms.logical {
        refuse(below(terms.offset, terms.align), terms.align)?;
    }
    if terms.tabled {
        refuse(off_multiple(Some(terms.align), sector), sector)?;
        refuse(off_multiple(terms.size, sector), sector)?;
    }
    Ok(())
}

/// Refuses the first hole that doesn't begin below its end, or begins below the end of the one before.
pub(crate) fn check_holes(holes: &[Hole]) -> Result<(), PartFault>
    ensures { Passes (bad_holes holes.now) result }
{
    let mut from = 0;
    for (index, hole) in holes.iter().enumerate() {
        if hole.from >= hole.to || hole.from < from {
            return Err(PartFault::BadHoles {
                index: index as u64,
            });
        }
        from = hole.to;
    }
    Ok(())
}

/// Refuses a length that would be rounded up to the partition's size, where it is above the limit: the rounding needn't fit.
pub(crate) fn check_length(terms: &Terms) -> Result<(), PartFault>
    ensures ok { OnOk result (IsRoundable terms.now) }
    ensures err { IfErr result (λ fault. IsTooLong terms.now fault) }
{
    if !terms.autoresize && terms.size.is_none() && terms.len > MOST_SIZE {
        return Err(PartFault::TooFar {
            number: terms.len,
            limit: MOST_SIZE,
        });
    }
    Ok(())
}

/// Refuses a partition that grows, where it has less than its least size.
fn check_room(terms: &Terms, size: u64) -> Result<(), PartFault>
    ensures { Passes (bad_autoresize terms.now size) result }
{
    let least = terms.size.unwrap_or(0).max(terms.len).max(1);
    if terms.autoresize && size < least {
        return Err(PartFault::BadAutoresize { room: size, least });
    }
    Ok(())
}

fn check_file(terms: &Terms, size: u64) -> Result<(), PartFault>
    ensures { Passes (too_large terms.now size) result }
{
    if size < terms.len {
        return Err(PartFault::FileTooLarge {
            has: terms.len,
            limit: size,
        });
    }
    Ok(())
}

fn check_some(terms: &Terms, size: u64) -> Result<(), PartFault>
    ensures { Passes (no_size terms.now size) result }
{
    if terms.tabled && size == 0 {
        return Err(PartFault::NoSize);
    }
    Ok(())
}

fn check_above(limit: u64, number: u64) -> Result<(), PartFault>
    ensures { Passes (above limit number) result }
{
    if limit < number {
        return Err(PartFault::TooFar { number, limit });
    }
    Ok(())
}

/// Refuses a file or an end behind the greatest offset, and sectors that a master boot record can't number.
fn check_far(terms: &Terms, place: &Place) -> Result<(), PartFault>
    requires fits { place.now.at + place.now.size < 2 ^ 64 }
    ensures { Passes (too_far (record { terms = terms.now; holes = []; place = place.now })) result }
{
    let end = place.at + place.size;
    check_above(MOST_SIZE, terms.len)?;
    check_above(MOST_SIZE, end)?;
    if terms.narrow {
        check_above(MOST_SECTORS, (end / 512).saturating_sub(1))?;
        check_above(MOST_SECTORS, place.size / 512)?;
    }
    Ok(())
}

/// Refuses a partition by its place and its size.
pub(crate) fn check_place(terms: &Terms, place: &Place) -> Result<(), PartFault>
    requires fits { place.now.at + place.now.size < 2 ^ 64 }
    ensures { Passes (place_fault terms.now place.now) result }
{
    check_room(terms, place.size)?;
    check_file(terms, place.size)?;
    check_some(terms, place.size)?;
    check_far(terms, place)?;
    Ok(())
}
