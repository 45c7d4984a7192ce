//! The parts of an image: each partition in its place, with its file.
ghost use Rattle.std.specs.Prelude.{◌≡◌, ◌<◌, IfOk, false, length, map, slice_index_or};
ghost use Rattle.placement.specs.Layouts.{hole_span, parts_from, placed_of, wholes_as};
ghost use Rattle.placement.specs.Said.{name_at};
ghost use Rattle.placement_rules.specs.Terms.{names_of};

use crate::naming::{copy_name, name_at};
use base_fields::{List, Name, NoMemory, Span};
use conf_keys::Kind;
use conf_values::Hole;
use image_layout::Placed;
use image_specs::ImageSpec;
use placement_claims::Claim;
use std::alloc::Global;

/// All parts of an image in order.
pub fn parts_of(alloc: Global, spec: &ImageSpec, claims: &[Claim]) -> Result<List<Placed>, NoMemory>
    requires names { length claims.now ≡ length (names_of spec.now) }
    requires sources { length claims.now ≡ length spec.now.sources }
    requires wholes { length claims.now ≡ length (wholes_as spec.now.kind spec.now.keys.parts) }
    ensures { IfOk result (λ parts. parts ≡ parts_from
        (names_of spec.now) spec.now.sources (wholes_as spec.now.kind spec.now.keys.parts) claims.now) }
{
    let sources = spec.sources.as_slice();
    let mut parts = List::new(alloc);
    for k in 0..claims.len() {
        let source = &sources[k].file;
        parts.push(part_of(
            alloc,
            name_at(spec, k),
            source,
            whole_at(spec, k),
            &claims[k],
        )?)?;
    }
    Ok(parts)
}

/// Whether all of a part is covered, by the key `fill` of a partition.
fn whole_at(spec: &ImageSpec, number: usize) -> bool
    requires { number < length (wholes_as spec.now.kind spec.now.keys.parts) }
    ensures { result ≡ slice_index_or (wholes_as spec.now.kind spec.now.keys.parts) number false }
{
    match spec.kind {
        Kind::Hd => spec.keys.parts.as_slice()[number].fill,
        _ => false,
    }
}

fn part_of(
    alloc: Global,
    name: &Name,
    source: &Option<Name>,
    whole: bool,
    claim: &Claim,
) -> Result<Placed, NoMemory>
    ensures { IfOk result (λ part. part ≡ placed_of name.now source.now whole claim.now) }
{
    let place = claim.place();
    Ok(Placed {
        name: copy_name(alloc, name)?,
        source: copy_given(alloc, source)?,
        at: place.at,
        size: place.size,
        len: claim.terms().len,
        whole,
        holes: spans_of(alloc, claim.holes())?,
    })
}

fn copy_given(alloc: Global, name: &Option<Name>) -> Result<Option<Name>, NoMemory>
    ensures { IfOk result (λ copy. copy ≡ name.now) }
{
    match name {
        Some(name) => Ok(Some(copy_name(alloc, name)?)),
        None => Ok(None),
    }
}

/// Holes as spans of the file.
fn spans_of(alloc: Global, holes: &[Hole]) -> Result<List<Span>, NoMemory>
    ensures { IfOk result (λ spans. spans ≡ map hole_span holes.now) }
{
    let mut spans = List::new(alloc);
    for hole in holes {
        spans.push(span_of(*hole))?;
    }
    Ok(spans)
}

fn span_of(hole: Hole) -> Span
    ensures { result ≡ hole_span hole }
{
    Span {
        at: hole.from,
        len: hole.to.saturating_sub(hole.from),
    }
}
