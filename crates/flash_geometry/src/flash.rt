ghost use Rattle.std.specs.Prelude.{◌≡◌, IfErr, IfOk};
ghost use Rattle.image_layout.specs.IsLayout.{IsLayout};
ghost use Rattle.flash_geometry.specs.Faults.{Refuses};
ghost use Rattle.flash_geometry.specs.Layouts.{AreLens, IsFlash, layout_of, refusal};

use crate::Geometry;
use crate::faults::image_fault;
use crate::layouts::layout_in;
use crate::places::places;
use image_layout::Layout;
use image_specs::ImageSpec;
use placement_rules::PlaceFault;
use std::alloc::Global;

/// Where everything of a flash image stands, or the first refusal. `geometry` is that of the device of
/// its flash section; `lens` has the length of the file of each source, in bytes, and 0 where a source
/// has none. Takes memory.
///
/// Each partition is looked at in the order of the text: its file isn't too long for any image
/// (`TooFar`), its offset and its size are whole erase blocks (`NotOnBlock`), its file fits
/// (`FileTooLarge`), it keeps clear of those before it (`Overlap`) and ends within the device
/// (`PastFlash`). Then the size of the image is, which isn't below the end of any of them
/// (`ImageTooSmall`).
pub fn place_flash(
    alloc: Global,
    spec: &ImageSpec,
    geometry: &Geometry,
    lens: &[u64],
) -> Result<Layout, PlaceFault>
    requires flash { IsFlash spec.now geometry.now }
    requires lengths { AreLens spec.now.sources lens.now }

    // There is no refusal, and it is the one layout.
    ensures placed { IfOk result (λ layout. (refusal spec.now geometry.now lens.now ≡ None)
        × (layout ≡ layout_of spec.now geometry.now lens.now)) }
    // It is the first refusal, unless memory was refused.
    ensures refused { IfErr result (Refuses (refusal spec.now geometry.now lens.now)) }
    // Partitions lie apart and within the image.
    ensures layout { IfOk result IsLayout }
{
    let taken = places(alloc, geometry, spec.keys.parts.as_slice(), lens)?;
    let needs = taken.last_end();
    image_fault(alloc, geometry, &spec.name, spec.keys.size, needs)?;
    Ok(layout_in(alloc, spec, lens, taken.spans(), needs)?)
}
