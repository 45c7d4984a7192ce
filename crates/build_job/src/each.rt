//! One image after another.
ghost use Rattle.std.specs.Prelude.{◌<◌, ◌≤◌, All, IfErr, OnOk, length};
ghost use Rattle.build_laws.specs.Builds.{BuildsTo};
ghost use Rattle.build_laws.specs.Order.{ordered};
ghost use Rattle.image_graph.specs.IsGraph.{IsGraph};
ghost use Rattle.image_specs.specs.IsSpec.{IsSpec};
ghost use Rattle.image_specs.specs.Specs.{full_names};
ghost use Rattle.outside.specs.Counts.{NoneFell};
ghost use Rattle.region_pool.specs.Buffers.{free_of};
ghost use Rattle.region_pool.specs.Uses.{IsGivenBack};
ghost use Rattle.build_job.specs.Faults.{IsOfImages, IsShown, IsStopped};
ghost use Rattle.build_job.specs.Files.{StayOutside};

use crate::{BuildFault, build_image};
use image_graph::Graph;
use outside::Files;
use region_pool::Pool;
use std::alloc::Global;

/// Builds the images of a graph in its order, each from the files that those before it left, and ends at the first fault.
/// The images before that one stay built. Takes the memory of one plan and one cover at a time.
pub fn build_each<F: Files>(
    alloc: Global,
    files: &mut F,
    graph: &Graph,
    pool: &mut Pool,
) -> Result<(), BuildFault>
    requires free { 0 < free_of pool.old }
    requires room { 1048576 ≤ pool.old.size }
    requires graph { IsGraph graph.now }
    requires specs { All IsSpec graph.now.specs }

    // Over told files: all are built, or the fault is that of one by the files that those before it left.
    ensures built { F.told → OnOk result (BuildsTo graph.now.specs (ordered graph.now) (F.file files.old) (F.file files.new)) }
    ensures stopped { F.told → IfErr result (IsStopped graph.now (F.file files.old) (F.file files.new)) }

    // Told or not: a fault of the files only where its count rose.
    ensures cause { IfErr result (IsShown (F.counts files.old) (F.counts files.new)) }
    ensures image { IfErr result (IsOfImages (length graph.now.specs)) }
    ensures none_fell { NoneFell (F.counts files.old) (F.counts files.new) }

    ensures others { StayOutside (full_names graph.now.specs) (F.file files.old) (F.file files.new) }
    ensures given_back { IsGivenBack pool.old pool.new }
{
    let specs = graph.specs.as_slice();
    for image in graph.order.as_slice() {
        build_image(alloc, files, specs, *image, &specs[*image as usize], pool)?;
    }
    Ok(())
}
