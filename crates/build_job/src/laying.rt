//! An image that has a layout.
ghost use Rattle.std.specs.Prelude.{◌<◌, ℕ, IfErr, IsTrue, List, OnOk};
ghost use Rattle.build_laws.specs.Builds.{Builds};
ghost use Rattle.build_laws.specs.Order.{IsWithout};
ghost use Rattle.image_plan.specs.Plans.{is_planned};
ghost use Rattle.image_specs.specs.IsSpec.{IsSpec};
ghost use Rattle.image_specs.specs.declared.specs.ImageSpec.{ImageSpec as spec_of};
ghost use Rattle.outside.specs.Counts.{NoneFell};
ghost use Rattle.outside.specs.Files.{OthersStay};
ghost use Rattle.region_pool.specs.Buffers.{free_of};
ghost use Rattle.region_pool.specs.Uses.{IsGivenBack};
ghost use Rattle.build_job.specs.Faults.{IsOfImages, IsRefused, IsShown};

use crate::BuildFault;
use build_laws::plans_are_served;
use image_composer::compose;
use image_plan::plan_image;
use image_specs::ImageSpec;
use outside::Files;
use region_pool::Pool;
use std::alloc::Global;

/// Builds a disk image, a plain image or one for a flash device: its layout by the files as they are, and then its file,
/// through one leased buffer, which is given back. Its number is named in a fault. After a fault of the composing its file
/// may hold any bytes. Takes the memory of its plan alone.
pub fn lay_image<F: Files>(
    alloc: Global,
    files: &mut F,
    number: u32,
    spec: &ImageSpec,
    pool: &mut Pool,
) -> Result<(), BuildFault>
    requires free { 0 < free_of pool.old }
    requires spec { IsSpec spec.now }
    requires kind { IsTrue (is_planned spec.now.kind) }
    requires own { IsWithout spec.now.full spec.now }

    // Over told files: the image is built, or the fault is that of its plan, or a counted one of its composing.
    ensures built { F.told → (all : List spec_of) → OnOk result (Builds all spec.now (F.file files.old) (F.file files.new)) }
    ensures refused { F.told → (all : List spec_of) → IfErr result (IsRefused all number spec.now (F.file files.old)) }

    // Told or not: a fault of the files only where its count rose.
    ensures cause { IfErr result (IsShown (F.counts files.old) (F.counts files.new)) }
    ensures image { (n : ℕ) → number < n → IfErr result (IsOfImages n) }
    ensures none_fell { NoneFell (F.counts files.old) (F.counts files.new) }

    ensures others { OthersStay spec.now.full (F.file files.old) (F.file files.new) }
    ensures given_back { IsGivenBack pool.old pool.new }
{
    plans_are_served();
    let layout = match plan_image(alloc, files, spec) {
        Ok(layout) => layout,
        Err(fault) => return Err(BuildFault::Plan {
            image: number,
            fault,
        }),
    };
    match compose(files, &layout, pool) {
        Ok(()) => Ok(()),
        Err(fault) => Err(BuildFault::Compose {
            image: number,
            fault,
        }),
    }
}
