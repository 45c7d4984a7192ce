//! The plan of one image.
ghost use Rattle.std.specs.Prelude.{◌≡◌, IfErr, IfOk, IsTrue};
ghost use Rattle.image_layout.specs.IsLayout.{IsLayout};
ghost use Rattle.image_specs.specs.IsSpec.{IsSpec};
ghost use Rattle.job_stages.specs.Stages.{Gives};
ghost use Rattle.outside.specs.Counts.{NoneFell};
ghost use Rattle.image_plan.specs.Faults.{IsShown, is_counted};
ghost use Rattle.image_plan.specs.Plans.{HasOwnFile, IsPlaced, IsPlanFault, is_planned, plan_said};

use crate::PlanFault;
use crate::measuring::lengths;
use crate::placing::place_by;
use image_layout::Layout;
use image_specs::ImageSpec;
use outside::Files;
use std::alloc::Global;

/// The layout of an image by the files as they are, or why it has none. The length of the file of each source is asked
/// for, in order and once; then the image is placed, one for a flash device on its erase blocks. No file is read or
/// changed. Takes memory.
pub fn plan_image<F: Files>(
    alloc: Global,
    files: &mut F,
    spec: &ImageSpec,
) -> Result<Layout, PlanFault>
    requires spec { IsSpec spec.now }
    requires kind { IsTrue (is_planned spec.now.kind) }

    // Over told files: the one layout, or the first refusal, or a fault of the files or of memory.
    ensures said { F.told → Gives is_counted (plan_said (F.file files.old) spec.now) (λ layout. layout) (λ fault. fault) result }

    // Told or not: a fault of the files only where its count rose; a layout or a refusal by some lengths.
    ensures cause { IfErr result (IsShown (F.counts files.old) (F.counts files.new)) }
    ensures placed { IfOk result (IsPlaced spec.now) }
    ensures fault { IfErr result (IsPlanFault spec.now) }
    ensures layout { IfOk result IsLayout }
    ensures own { IfOk result (HasOwnFile spec.now) }

    ensures none_fell { NoneFell (F.counts files.old) (F.counts files.new) }
    ensures same_files { F.file files.new ≡ F.file files.old }
{
    let lens = lengths(alloc, files, spec.sources.as_slice())?;
    let layout = place_by(alloc, spec, lens.as_slice())?;
    Ok(layout)
}
