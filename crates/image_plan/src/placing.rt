//! The layout of an image by the lengths of its sources' files.
ghost use Rattle.std.specs.Prelude.{◌≡◌, None, Some, IfErr, IfOk, IsTrue};
ghost use Rattle.flash_geometry.specs.Faults.{Refuses};
ghost use Rattle.flash_geometry.specs.Layouts.{layout_of as flash_layout, refusal as flash_refusal};
ghost use Rattle.image_layout.specs.IsLayout.{IsLayout};
ghost use Rattle.image_specs.specs.IsSpec.{IsSpec};
ghost use Rattle.placement.specs.Layouts.{layout_of as disk_layout};
ghost use Rattle.placement.specs.Said.{refusal as disk_refusal};
ghost use Rattle.placement_apart.specs.Apart.{AreLengths};
ghost use Rattle.image_plan.specs.Plans.{geometry_of, is_planned, layout_by, refusal_by};

use conf_keys::FlashSection;
use flash_geometry::{Geometry, place_flash};
use image_layout::Layout;
use image_specs::ImageSpec;
use placed_layouts::placed_is_layout;
use placement::place;
use placement_rules::PlaceFault;
use std::alloc::Global;

/// Where everything of an image stands, by the length of each source's file, or the first refusal. Takes memory.
pub fn place_by(alloc: Global, spec: &ImageSpec, lens: &[u64]) -> Result<Layout, PlaceFault>
    requires spec { IsSpec spec.now }
    requires kind { IsTrue (is_planned spec.now.kind) }
    requires lengths { AreLengths spec.now.sources lens.now }
    ensures placed { IfOk result (λ layout.
        (refusal_by spec.now lens.now ≡ None) × (layout ≡ layout_by spec.now lens.now)) }
    ensures refused { IfErr result (Refuses (refusal_by spec.now lens.now)) }
    ensures layout { IfOk result IsLayout }
{
    match &spec.flash {
        Some(flash) => on_flash(alloc, spec, flash, lens),
        None => on_disk(alloc, spec, lens),
    }
}

// That of an image for the device of its flash section.
fn on_flash(
    alloc: Global,
    spec: &ImageSpec,
    flash: &FlashSection,
    lens: &[u64],
) -> Result<Layout, PlaceFault>
    requires spec { IsSpec spec.now }
    requires flash { spec.now.flash ≡ Some flash.now }
    requires lengths { AreLengths spec.now.sources lens.now }
    ensures placed { IfOk result (λ layout. (flash_refusal spec.now (geometry_of flash.now) lens.now ≡ None)
        × (layout ≡ flash_layout spec.now (geometry_of flash.now) lens.now)) }
    ensures refused { IfErr result (Refuses (flash_refusal spec.now (geometry_of flash.now) lens.now)) }
    ensures layout { IfOk result IsLayout }
{
    let geometry = Geometry {
        pebsize: flash.pebsize,
        numpebs: flash.numpebs,
    };
    place_flash(alloc, spec, &geometry, lens)
}

// That of a disk image or a plain image.
fn on_disk(alloc: Global, spec: &ImageSpec, lens: &[u64]) -> Result<Layout, PlaceFault>
    requires spec { IsSpec spec.now }
    requires kind { IsTrue (is_planned spec.now.kind) }
    requires flash { spec.now.flash ≡ None }
    requires lengths { AreLengths spec.now.sources lens.now }
    ensures placed { IfOk result (λ layout. (disk_refusal spec.now lens.now ≡ None)
        × (layout ≡ disk_layout spec.now lens.now)) }
    ensures refused { IfErr result (Refuses (disk_refusal spec.now lens.now)) }
    ensures layout { IfOk result IsLayout }
{
    placed_is_layout();
    place(alloc, spec, lens)
}
