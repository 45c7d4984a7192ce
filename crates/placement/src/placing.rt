//! Whole images.
ghost use Rattle.std.specs.Prelude.{◌≡◌, [], None, IfErr, IfOk, IsTrue, length};
ghost use Rattle.image_specs.specs.IsSpec.{IsSpec};
ghost use Rattle.placement.specs.Fitting.{AreSettled, AreStood};
ghost use Rattle.placement.specs.Layouts.{image_size, is_filled, layout_in, layout_of};
ghost use Rattle.placement.specs.Said.{IsFaultOf, image_last, partition_fault, refusal};
ghost use Rattle.placement_rules.specs.Bounds.{AreTerms, IsFrame, is_placed};
ghost use Rattle.placement_rules.specs.Places.{stood_from};
ghost use Rattle.placement_rules.specs.Terms.{holes_of, names_of};
ghost use Rattle.placement_walk.specs.Walked.{AreWalked};

use crate::naming::{copy_name, named};
use crate::parts::parts_of;
use crate::refusing::{check_first, check_last, needs_of};
use crate::tables::{guid_for, hybrid_for, logical_for, record_for};
use base_fields::NoMemory;
use conf_keys::Kind;
use image_layout::Layout;
use image_specs::ImageSpec;
use placement_claims::Earlier;
use placement_rules::{Frame, PlaceFault, Terms, frame_of, terms_of};
use placement_walk::{WalkFault, walk};
use std::alloc::Global;

/// Where everything of a disk image or a plain image stands, or the first refusal of it. `lens` has the length of each
/// source's file, 0 where it has none. Takes memory.
pub fn place(alloc: Global, spec: &ImageSpec, lens: &[u64]) -> Result<Layout, PlaceFault>
    requires spec { IsSpec spec.now }
    requires kind { IsTrue (is_placed spec.now.kind) }
    requires lens { length lens.now ≡ length spec.now.sources }
    ensures placed { IfOk result (λ layout.
        (refusal spec.now lens.now ≡ None) × (layout ≡ layout_of spec.now lens.now)) }
    ensures refused { IfErr result (IsFaultOf (refusal spec.now lens.now)) }
{
    let frame = frame_of(spec);
    check_first(alloc, spec, &frame)?;
    let terms = terms_of(alloc, spec, lens)?;
    let placed = stand_all(alloc, spec, &frame, terms.as_slice())?;
    let layout = finish(alloc, spec, &frame, &placed)?;
    Ok(layout)
}

/// All partitions in their places, or the fault of the first that can't stand.
fn stand_all(
    alloc: Global,
    spec: &ImageSpec,
    frame: &Frame,
    terms: &[Terms],
) -> Result<Earlier, PlaceFault>
    requires frame { IsFrame frame.now }
    requires terms { AreTerms terms.now }
    requires names { length terms.now ≡ length (names_of spec.now) }
    requires holes { length terms.now ≡ length (holes_of spec.now) }
    ensures ok { IfOk result (AreWalked frame.now (stood_from frame.now [] terms.now (holes_of spec.now))) }
    ensures err { IfErr result (IsFaultOf
        (partition_fault spec.now frame.now (stood_from frame.now [] terms.now (holes_of spec.now)))) }
{
    match walk(alloc, spec, frame, terms) {
        Ok(placed) => Ok(placed),
        Err(WalkFault::Part { number, fault }) => Err(named(alloc, spec, number, fault)),
        Err(WalkFault::NoMemory) => Err(PlaceFault::NoMemory),
    }
}

/// The layout of partitions that stand, or what refuses the image.
fn finish(
    alloc: Global,
    spec: &ImageSpec,
    frame: &Frame,
    placed: &Earlier,
) -> Result<Layout, PlaceFault>
    requires { AreStood spec.now frame.now placed.now }
    ensures ok { IfOk result (λ layout.
        (image_last spec.now frame.now placed.now ≡ None) × (layout ≡ layout_in spec.now frame.now placed.now)) }
    ensures err { IfErr result (IsFaultOf (image_last spec.now frame.now placed.now)) }
{
    check_last(alloc, spec, frame, placed)?;
    let layout = layout(alloc, spec, frame, placed)?;
    Ok(layout)
}

/// The layout of partitions that stand.
fn layout(
    alloc: Global,
    spec: &ImageSpec,
    frame: &Frame,
    placed: &Earlier,
) -> Result<Layout, NoMemory>
    requires stood { AreStood spec.now frame.now placed.now }
    requires settled { AreSettled spec.now frame.now placed.now }
    ensures { IfOk result (λ layout. layout ≡ layout_in spec.now frame.now placed.now) }
{
    let claims = placed.claims();
    let size = size_of(frame, placed);
    let logical = logical_for(alloc, spec, frame, claims)?;
    let hybrid = hybrid_for(alloc, spec, frame, claims)?;
    let mbr = record_for(
        alloc,
        spec,
        frame,
        claims,
        size,
        logical.as_slice(),
        hybrid.as_slice(),
    )?;
    Ok(Layout {
        file: copy_name(alloc, &spec.full)?,
        size,
        fill: 0,
        whole: is_filled(spec),
        table: frame.table,
        sector: frame.sector,
        mbr,
        hybrid,
        logical,
        gpt: guid_for(alloc, spec, frame, claims, size)?,
        parts: parts_of(alloc, spec, claims)?,
    })
}

/// The size of an image: its key, else its needs.
fn size_of(frame: &Frame, placed: &Earlier) -> u64
    requires { IsFrame frame.now }
    ensures { result ≡ image_size frame.now placed.now }
{
    match frame.size {
        Some(size) => size,
        None => needs_of(frame, placed),
    }
}

/// Whether all of an image is covered.
fn is_filled(spec: &ImageSpec) -> bool
    ensures { result ≡ is_filled spec.now.kind spec.now.keys.hd.fill }
{
    match spec.kind {
        Kind::Hd => spec.keys.hd.fill,
        _ => false,
    }
}
