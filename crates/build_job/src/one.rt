//! One image.
ghost use Rattle.std.specs.Prelude.{◌≡◌, ◌<◌, ◌≤◌, All, IfErr, OnOk, length};
ghost use Rattle.build_laws.specs.Builds.{Builds};
ghost use Rattle.build_laws.specs.Order.{IsWithout};
ghost use Rattle.image_graph.specs.IsGraph.{IsMadeOf};
ghost use Rattle.image_specs.specs.IsSpec.{IsSpec};
ghost use Rattle.outside.specs.Counts.{NoneFell};
ghost use Rattle.outside.specs.Files.{OthersStay};
ghost use Rattle.region_pool.specs.Buffers.{free_of};
ghost use Rattle.region_pool.specs.Uses.{IsGivenBack};
ghost use Rattle.build_job.specs.Faults.{IsOfImages, IsRefused, IsShown};

use crate::BuildFault;
use crate::kinds::has_layout;
use crate::laying::lay_image;
use crate::sparse::write_image;
use image_specs::ImageSpec;
use outside::Files;
use region_pool::Pool;
use std::alloc::Global;

/// Builds the image of that number among those that are built together, which its own sources name: the layout of a disk
/// image, a plain image or one for a flash device by the files as they are, and then its file; or the sparse file of its
/// one source's. All goes through one leased buffer, which is given back. After a fault of the composing its file may hold
/// any bytes. Takes the memory of one plan and one cover.
pub fn build_image<F: Files>(
    alloc: Global,
    files: &mut F,
    specs: &[ImageSpec],
    number: u32,
    spec: &ImageSpec,
    pool: &mut Pool,
) -> Result<(), BuildFault>
    requires free { 0 < free_of pool.old }
    requires room { 1048576 ≤ pool.old.size }
    requires specs { All IsSpec specs.now }
    requires number { number < length specs.now }
    requires spec { IsSpec spec.now }
    requires own { IsWithout spec.now.full spec.now }
    requires children { All (IsMadeOf specs.now) spec.now.sources }

    // Over told files: the image is built, or it is refused by the files as they were.
    ensures built { F.told → OnOk result (Builds specs.now spec.now (F.file files.old) (F.file files.new)) }
    ensures refused { F.told → IfErr result (IsRefused specs.now number spec.now (F.file files.old)) }

    // Told or not: a fault of the files only where its count rose.
    ensures cause { IfErr result (IsShown (F.counts files.old) (F.counts files.new)) }
    ensures image { IfErr result (IsOfImages (length specs.now)) }
    ensures none_fell { NoneFell (F.counts files.old) (F.counts files.new) }

    ensures others { OthersStay spec.now.full (F.file files.old) (F.file files.new) }
    ensures given_back { IsGivenBack pool.old pool.new }
{
    if has_layout(spec.kind) {
        lay_image(alloc, files, number, spec, pool)
    } else {
        write_image(alloc, files, specs, number, spec, pool)
    }
}
