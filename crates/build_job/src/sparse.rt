//! A sparse image.
ghost use Rattle.std.specs.Prelude.{◌≡◌, ◌∷◌, ◌<◌, ◌≤◌, [], All, IfErr, OnOk, length};
ghost use Rattle.build_laws.specs.Builds.{Builds};
ghost use Rattle.build_laws.specs.Order.{IsWithout};
ghost use Rattle.image_graph.specs.IsGraph.{IsMadeOf};
ghost use Rattle.image_specs.specs.IsSpec.{IsOneSource, IsSpec};
ghost use Rattle.outside.specs.Counts.{NoneFell};
ghost use Rattle.outside.specs.Files.{OthersStay};
ghost use Rattle.region_pool.specs.Buffers.{free_of};
ghost use Rattle.region_pool.specs.Uses.{IsGivenBack};
ghost use Rattle.build_job.specs.Faults.{IsOfImages, IsRefused, IsShown};

use crate::BuildFault;
use crate::covers::cover_of;
use crate::measures::sparse_length;
use conf_keys::Kind;
use image_specs::{ImageSpec, Source};
use outside::Files;
use region_pool::Pool;
use sparse_writer::write_sparse;
use std::alloc::Global;

/// Writes the sparse file of a sparse image's one source, through one leased buffer, which is given back: of what is built
/// for the source and has a layout, the offsets that the layout covers, and else all. A fault names the image of that
/// number, or the source's own where that has no layout. After a fault of the writing its file may hold any bytes. Takes
/// the memory of one plan and one cover.
pub fn write_image<F: Files>(
    alloc: Global,
    files: &mut F,
    specs: &[ImageSpec],
    number: u32,
    spec: &ImageSpec,
    pool: &mut Pool,
) -> Result<(), BuildFault>
    requires free { 0 < free_of pool.old }
    requires room { 1048576 ≤ pool.old.size }
    requires specs { All IsSpec specs.now }
    requires number { number < length specs.now }
    requires spec { IsSpec spec.now }
    requires kind { spec.now.kind ≡ Kind.Sparse }
    requires own { IsWithout spec.now.full spec.now }
    requires children { All (IsMadeOf specs.now) spec.now.sources }

    // Over told files: the image is built, or its source, or what is built for it, is refused, or a counted fault.
    ensures built { F.told → OnOk result (Builds specs.now spec.now (F.file files.old) (F.file files.new)) }
    ensures refused { F.told → IfErr result (IsRefused specs.now number spec.now (F.file files.old)) }

    // Told or not: a fault of the files only where its count rose.
    ensures cause { IfErr result (IsShown (F.counts files.old) (F.counts files.new)) }
    ensures image { IfErr result (IsOfImages (length specs.now)) }
    ensures none_fell { NoneFell (F.counts files.old) (F.counts files.new) }

    ensures others { OthersStay spec.now.full (F.file files.old) (F.file files.new) }
    ensures given_back { IsGivenBack pool.old pool.new }
{
    let source = one_source(spec);
    let Some(name) = &source.file else {
        unreachable!()
    };
    let len = match sparse_length(alloc, files, spec, source) {
        Ok(len) => len,
        Err(fault) => return Err(BuildFault::Plan {
            image: number,
            fault,
        }),
    };
    let cover = cover_of(alloc, files, specs, source, len)?;
    let block = spec.keys.sparse.block_size;
    match write_sparse(
        files,
        name.text(),
        len,
        &cover,
        block,
        spec.full.text(),
        pool,
    ) {
        Ok(()) => Ok(()),
        Err(fault) => Err(BuildFault::Compose {
            image: number,
            fault,
        }),
    }
}

/// The one source of an image that has one.
fn one_source(spec: &ImageSpec) -> &Source
    requires { IsOneSource spec.now.sources }
    ensures { spec.now.sources ≡ result.now ∷ [] }
{
    &spec.sources.as_slice()[0]
}
