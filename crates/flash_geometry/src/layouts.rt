//! The layout of partitions that stand in their places.
ghost use Rattle.std.specs.Prelude.{◌≡◌, IfOk, length};
ghost use Rattle.flash_geometry.specs.Layouts.{layout_in, parts_from, placed_of};
ghost use Rattle.flash_geometry.specs.Places.{last_end};

use base_fields::{List, Name, NoMemory, Span, TableKind};
use conf_keys::PartitionSection;
use image_layout::{Layout, Placed};
use image_specs::{ImageSpec, Source};
use std::alloc::Global;

fn copy_given(alloc: Global, name: &Option<Name>) -> Result<Option<Name>, NoMemory>
    ensures { IfOk result (λ copy. copy ≡ name.now) }
{
    match name {
        Some(name) => Ok(Some(Name::of(alloc, name.text())?)),
        None => Ok(None),
    }
}

fn placed_of(
    alloc: Global,
    part: &PartitionSection,
    source: &Source,
    len: u64,
    span: Span,
) -> Result<Placed, NoMemory>
    ensures { IfOk result (λ placed. placed ≡ placed_of part.now source.now len span) }
{
    Ok(Placed {
        name: Name::of(alloc, part.name.text())?,
        source: copy_given(alloc, &source.file)?,
        at: span.at,
        size: span.len,
        len,
        whole: false,
        holes: List::new(alloc),
    })
}

// One for each partition, in order.
fn parts_from(
    alloc: Global,
    parts: &[PartitionSection],
    sources: &[Source],
    lens: &[u64],
    spans: &[Span],
) -> Result<List<Placed>, NoMemory>
    requires sources { length sources.now ≡ length parts.now }
    requires lens { length lens.now ≡ length parts.now }
    requires spans { length spans.now ≡ length parts.now }
    ensures { IfOk result (λ placed. placed ≡ parts_from parts.now sources.now lens.now spans.now) }
{
    let mut placed = List::new(alloc);
    for (k, part) in parts.iter().enumerate() {
        placed.push(placed_of(alloc, part, &sources[k], lens[k], spans[k])?)?;
    }
    Ok(placed)
}

/// The layout of an image whose partitions stand on these spans and end at `needs`. Takes memory.
pub fn layout_in(
    alloc: Global,
    spec: &ImageSpec,
    lens: &[u64],
    spans: &[Span],
    needs: u64,
) -> Result<Layout, NoMemory>
    requires sources { length spec.now.sources ≡ length spec.now.keys.parts }
    requires lens { length lens.now ≡ length spec.now.keys.parts }
    requires spans { length spans.now ≡ length spec.now.keys.parts }
    requires needs { needs ≡ last_end spans.now }
    ensures { IfOk result (λ layout. layout ≡ layout_in spec.now lens.now spans.now) }
{
    let parts = spec.keys.parts.as_slice();
    Ok(Layout {
        file: Name::of(alloc, spec.full.text())?,
        size: spec.keys.size.unwrap_or(needs),
        fill: 0xFF,
        whole: true,
        table: TableKind::Bare,
        sector: 512,
        mbr: None,
        hybrid: List::new(alloc),
        logical: List::new(alloc),
        gpt: None,
        parts: parts_from(alloc, parts, spec.sources.as_slice(), lens, spans)?,
    })
}
