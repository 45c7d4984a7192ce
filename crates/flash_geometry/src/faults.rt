//! What refuses a flash image. Each check takes memory for the names of a refusal alone.
ghost use Rattle.std.specs.Prelude.{◌≡◌, ◌+◌, ◌^◌, ◌<◌, ◌≤◌, IfOk, OnOk, length};
ghost use Rattle.flash_geometry.specs.Faults.{Passes, image_fault, name_at, not_on_block, number_fault, overlap, past_flash, place_fault, too_far, too_large, too_small};
ghost use Rattle.flash_geometry.specs.Places.{IsGeometry};

use crate::Geometry;
use crate::taken::Taken;
use base_fields::{Name, NoMemory, Span};
use conf_keys::PartitionSection;
use placement_rules::PlaceFault;
use std::alloc::Global;

/// The greatest length of a file.
const MOST_BYTES: u64 = 1 << 43;

fn too_far(alloc: Global, name: &Name, len: u64) -> Result<(), PlaceFault>
    ensures passes { Passes (too_far name.now len) result }
    ensures bounded { OnOk result (len ≤ 2 ^ 43) }
{
    if len > MOST_BYTES {
        return Err(PlaceFault::TooFar {
            part: Name::of(alloc, name.text())?,
            number: len,
            limit: MOST_BYTES,
        });
    }
    Ok(())
}

// Refuses a number that isn't a multiple of an erase block.
fn not_on_block(
    alloc: Global,
    geometry: &Geometry,
    name: &Name,
    value: Option<u64>,
) -> Result<(), PlaceFault>
    requires { IsGeometry geometry.now }
    ensures { Passes (not_on_block geometry.now name.now value) result }
{
    let Some(value) = value else {
        return Ok(());
    };
    if value % geometry.pebsize == 0 {
        return Ok(());
    }
    Err(PlaceFault::NotOnBlock {
        part: Name::of(alloc, name.text())?,
        value,
        pebsize: geometry.pebsize,
    })
}

fn too_large(alloc: Global, name: &Name, has: u64, limit: u64) -> Result<(), PlaceFault>
    ensures { Passes (too_large name.now has limit) result }
{
    if limit < has {
        return Err(PlaceFault::FileTooLarge {
            part: Name::of(alloc, name.text())?,
            has,
            limit,
        });
    }
    Ok(())
}

// Refuses an end behind the last byte of the device.
fn past_flash(alloc: Global, geometry: &Geometry, name: &Name, end: u64) -> Result<(), PlaceFault>
    requires { IsGeometry geometry.now }
    ensures passes { Passes (past_flash geometry.now name.now end) result }
    ensures bounded { OnOk result (end ≤ 2 ^ 43) }
{
    let limit = geometry.pebsize * geometry.numpebs;
    if limit < end {
        return Err(PlaceFault::PastFlash {
            part: Name::of(alloc, name.text())?,
            end,
            limit,
        });
    }
    Ok(())
}

// A copy of the name of the partition of that number.
fn name_at(alloc: Global, parts: &[PartitionSection], k: usize) -> Result<Name, NoMemory>
    requires { k < length parts.now }
    ensures { IfOk result (λ name. name ≡ name_at parts.now k) }
{
    Name::of(alloc, parts[k].name.text())
}

// Refuses a partition that has an offset of an earlier one.
fn overlap(
    alloc: Global,
    parts: &[PartitionSection],
    taken: &Taken,
    name: &Name,
    span: Span,
) -> Result<(), PlaceFault>
    requires known { length taken.now ≤ length parts.now }
    requires bounded { (span.at ≤ 2 ^ 44) × (span.len ≤ 2 ^ 44) }
    ensures { Passes (overlap parts.now taken.now name.now span) result }
{
    match taken.first_met(span) {
        Some(k) => Err(PlaceFault::Overlap {
            a: Name::of(alloc, name.text())?,
            b: name_at(alloc, parts, k)?,
        }),
        None => Ok(()),
    }
}

/// Refuses a partition by its numbers, before a place is looked for.
pub fn number_fault(
    alloc: Global,
    geometry: &Geometry,
    part: &PartitionSection,
    len: u64,
) -> Result<(), PlaceFault>
    requires { IsGeometry geometry.now }
    ensures passes { Passes (number_fault geometry.now part.now len) result }
    ensures bounded { OnOk result (len ≤ 2 ^ 43) }
{
    too_far(alloc, &part.name, len)?;
    not_on_block(alloc, geometry, &part.name, part.offset)?;
    not_on_block(alloc, geometry, &part.name, part.size)?;
    Ok(())
}

/// Refuses a partition in its place, behind those that have taken theirs. `len` is its file's length.
pub fn place_fault(
    alloc: Global,
    geometry: &Geometry,
    parts: &[PartitionSection],
    taken: &Taken,
    name: &Name,
    len: u64,
    span: Span,
) -> Result<(), PlaceFault>
    requires geometry { IsGeometry geometry.now }
    requires known { length taken.now ≤ length parts.now }
    requires bounded { (span.at ≤ 2 ^ 44) × (span.len ≤ 2 ^ 44) }
    ensures passes { Passes (place_fault geometry.now parts.now taken.now name.now len span) result }
    ensures within { OnOk result (span.at + span.len ≤ 2 ^ 43) }
{
    too_large(alloc, name, len, span.len)?;
    overlap(alloc, parts, taken, name, span)?;
    past_flash(alloc, geometry, name, span.at + span.len)?;
    Ok(())
}

fn too_small(size: Option<u64>, needs: u64) -> Result<(), PlaceFault>
    ensures { Passes (too_small size needs) result }
{
    match size {
        Some(has) if has < needs => Err(PlaceFault::ImageTooSmall { has, needs }),
        _ => Ok(()),
    }
}

/// Refuses the `size` of an image of that name, whose partitions end at `needs`.
pub fn image_fault(
    alloc: Global,
    geometry: &Geometry,
    name: &Name,
    size: Option<u64>,
    needs: u64,
) -> Result<(), PlaceFault>
    requires { IsGeometry geometry.now }
    ensures { Passes (image_fault geometry.now name.now size needs) result }
{
    not_on_block(alloc, geometry, name, size)?;
    past_flash(alloc, geometry, name, size.unwrap_or(0))?;
    too_small(size, needs)?;
    Ok(())
}
