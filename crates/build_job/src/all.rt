//! All images.
ghost use Rattle.std.specs.Prelude.{◌≡◌, ◌<◌, ◌≤◌, All, IfErr, IfOk, OnOk, length};
ghost use Rattle.build_laws.specs.Builds.{BuildsTo};
ghost use Rattle.build_laws.specs.Order.{ordered};
ghost use Rattle.image_graph.specs.IsGraph.{IsGraph};
ghost use Rattle.image_specs.specs.IsSpec.{IsSpec};
ghost use Rattle.image_specs.specs.Specs.{full_names};
ghost use Rattle.outside.specs.Counts.{NoneFell};
ghost use Rattle.region_pool.specs.Buffers.{free_of};
ghost use Rattle.region_pool.specs.Uses.{IsGivenBack};
ghost use Rattle.build_job.specs.Faults.{IsEnded, IsOfImages, IsShown};
ghost use Rattle.build_job.specs.Files.{StayOutside};
ghost use Rattle.build_job.specs.Said.{sizes_of};

use crate::BuildFault;
use crate::each::build_each;
use crate::sizes::lengths;
use base_fields::List;
use build_laws::graphs_are_built;
use image_graph::Graph;
use outside::Files;
use region_pool::Pool;
use std::alloc::Global;

/// Builds the images of a graph in its order, each from the files that those before it left, ends at the first fault, and
/// answers the length of each image's file in bytes, in that order. The images before a fault stay built. Takes the memory
/// of one plan or cover at a time, and of the lengths.
pub fn build_images<F: Files>(
    alloc: Global,
    files: &mut F,
    graph: &Graph,
    pool: &mut Pool,
) -> Result<List<u64>, BuildFault>
    requires free { 0 < free_of pool.old }
    requires room { 1048576 ≤ pool.old.size }
    requires graph { IsGraph graph.now }
    requires specs { All IsSpec graph.now.specs }

    // Over told files: all are built, or the fault is that of one by the files that those before it left.
    ensures built { F.told → OnOk result (BuildsTo graph.now.specs (ordered graph.now) (F.file files.old) (F.file files.new)) }
    ensures sizes { F.told → IfOk result (λ sizes. sizes ≡ sizes_of graph.now (F.file files.new)) }
    ensures refused { F.told → IfErr result (IsEnded graph.now (F.file files.old) (F.file files.new)) }

    // Told or not: a fault of the files only where its count rose.
    ensures cause { IfErr result (IsShown (F.counts files.old) (F.counts files.new)) }
    ensures image { IfErr result (IsOfImages (length graph.now.specs)) }
    ensures each { IfOk result (λ sizes. length sizes ≡ length graph.now.order) }
    ensures none_fell { NoneFell (F.counts files.old) (F.counts files.new) }

    ensures others { StayOutside (full_names graph.now.specs) (F.file files.old) (F.file files.new) }
    ensures given_back { IsGivenBack pool.old pool.new }
{
    graphs_are_built();
    build_each(alloc, files, graph, pool)?;
    let sizes = lengths(alloc, files, graph)?;
    Ok(sizes)
}
