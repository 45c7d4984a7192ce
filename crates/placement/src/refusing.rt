//! What refuses an image by its own numbers, in front of its partitions and behind them.
ghost use Rattle.std.specs.Prelude.{◌≡◌, None, Some, IfErr, OnOk, length};
ghost use Rattle.placement.specs.Layouts.{needs_of};
ghost use Rattle.placement.specs.Said.{IsFaultOf, above_most, extended_overlap, image_first, image_last, image_misaligned, too_many_entries, too_small};
ghost use Rattle.placement_rules.specs.Bounds.{IsFrame};
ghost use Rattle.placement_rules.specs.Faults.{◌or◌, off_multiple, where_so};
ghost use Rattle.placement_rules.specs.Frames.{has_table};
ghost use Rattle.placement_rules.specs.Terms.{names_of};

use crate::extended::in_extended;
use crate::naming::{copy_name, name_at};
use base_fields::Name;
use image_specs::ImageSpec;
use placement_claims::Earlier;
use placement_rules::{
    Frame, PlaceFault, backup_len, count_tabled, has_guid, has_table, least_multiple, off_multiple,
};
use std::alloc::Global;

/// The entries of a GUID partition table.
const MOST_ENTRIES: usize = 128;

/// The greatest end of an image, in bytes.
const MOST_SIZE: u64 = 1 << 43;

/// What refuses an image before its partitions are looked at.
pub fn check_first(alloc: Global, spec: &ImageSpec, frame: &Frame) -> Result<(), PlaceFault>
    requires { IsFrame frame.now }
    ensures ok { OnOk result (image_first spec.now frame.now ≡ None) }
    ensures err { IfErr result (IsFaultOf (image_first spec.now frame.now)) }
{
    check_count(spec, frame)?;
    check_aligns(alloc, spec, frame)?;
    Ok(())
}

/// What refuses an image when all its partitions stand.
pub fn check_last(
    alloc: Global,
    spec: &ImageSpec,
    frame: &Frame,
    placed: &Earlier,
) -> Result<(), PlaceFault>
    requires frame { IsFrame frame.now }
    requires count { length placed.now ≡ length (names_of spec.now) }
    ensures ok { OnOk result (image_last spec.now frame.now placed.now ≡ None) }
    ensures err { IfErr result (IsFaultOf (image_last spec.now frame.now placed.now)) }
{
    let needs = needs_of(frame, placed);
    check_extended(alloc, spec, placed)?;
    check_far(alloc, spec, needs)?;
    check_far(alloc, spec, frame.size.unwrap_or(0))?;
    check_room(frame, needs)?;
    Ok(())
}

fn check_count(spec: &ImageSpec, frame: &Frame) -> Result<(), PlaceFault>
    ensures ok { OnOk result (too_many_entries spec.now frame.now ≡ None) }
    ensures err { IfErr result (IsFaultOf (too_many_entries spec.now frame.now)) }
{
    let count = count_tabled(frame.table, spec.keys.parts.as_slice());
    if has_guid(frame.table) && MOST_ENTRIES < count {
        return Err(PlaceFault::TooManyEntries {
            count: count as u64,
        });
    }
    Ok(())
}

/// The size or the place of the entries, where it isn't a multiple of a sector.
fn misaligned(frame: &Frame) -> Option<u64>
    requires { IsFrame frame.now }
    ensures { result ≡ where_so (has_table frame.now.table)
        (off_multiple frame.now.size frame.now.sector or off_multiple (Some frame.now.entries_at) frame.now.sector) }
{
    if !has_table(frame.table) {
        return None;
    }
    let sector = u64::from(frame.sector);
    match off_multiple(frame.size, sector) {
        Some(size) => Some(size),
        None => off_multiple(Some(frame.entries_at), sector),
    }
}

fn check_aligns(alloc: Global, spec: &ImageSpec, frame: &Frame) -> Result<(), PlaceFault>
    requires { IsFrame frame.now }
    ensures ok { OnOk result (image_misaligned spec.now frame.now ≡ None) }
    ensures err { IfErr result (IsFaultOf (image_misaligned spec.now frame.now)) }
{
    match misaligned(frame) {
        Some(value) => Err(PlaceFault::Misaligned {
            part: copy_name(alloc, &spec.name)?,
            value,
            align: u64::from(frame.sector),
        }),
        None => Ok(()),
    }
}

fn check_extended(alloc: Global, spec: &ImageSpec, placed: &Earlier) -> Result<(), PlaceFault>
    requires { length placed.now ≡ length (names_of spec.now) }
    ensures ok { OnOk result (extended_overlap spec.now placed.now ≡ None) }
    ensures err { IfErr result (IsFaultOf (extended_overlap spec.now placed.now)) }
{
    match in_extended(placed.claims()) {
        Some(number) => Err(PlaceFault::Overlap {
            a: copy_name(alloc, name_at(spec, number))?,
            b: Name::of(alloc, "[extended]")?,
        }),
        None => Ok(()),
    }
}

/// Where an image ends that has no size of its own.
pub fn needs_of(frame: &Frame, placed: &Earlier) -> u64
    requires { IsFrame frame.now }
    ensures { result ≡ needs_of frame.now placed.now }
{
    let unit = if has_table(frame.table) {
        u64::from(frame.sector)
    } else {
        1
    };
    least_multiple(unit, frame.front.max(placed.greatest_end())) + backup_len(frame)
}

fn check_far(alloc: Global, spec: &ImageSpec, number: u64) -> Result<(), PlaceFault>
    ensures ok { OnOk result (above_most spec.now number ≡ None) }
    ensures err { IfErr result (IsFaultOf (above_most spec.now number)) }
{
    if MOST_SIZE < number {
        return Err(PlaceFault::TooFar {
            part: copy_name(alloc, &spec.name)?,
            number,
            limit: MOST_SIZE,
        });
    }
    Ok(())
}

fn check_room(frame: &Frame, needs: u64) -> Result<(), PlaceFault>
    ensures ok { OnOk result (too_small frame.now.size needs ≡ None) }
    ensures err { IfErr result (IsFaultOf (too_small frame.now.size needs)) }
{
    match frame.size {
        Some(has) if has < needs => Err(PlaceFault::ImageTooSmall { has, needs }),
        _ => Ok(()),
    }
}
