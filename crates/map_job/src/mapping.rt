//! The whole of it.
ghost use Rattle.std.specs.Prelude.{◌<◌, All, IfErr, IfOk, IsOk, IsOkAnd, OnOk, length};
ghost use Rattle.base_fields.specs.Numbers.{IsPowerBetween};
ghost use Rattle.image_graph.specs.IsGraph.{IsGraph};
ghost use Rattle.image_specs.specs.IsSpec.{IsSpec};
ghost use Rattle.job_stages.specs.Stages.{Refuses};
ghost use Rattle.outside.specs.Counts.{NoneFell};
ghost use Rattle.outside.specs.Files.{OthersStay};
ghost use Rattle.region_pool.specs.Buffers.{free_of};
ghost use Rattle.map_job.specs.Faults.{IsBehind, IsKept, IsOf, IsOfImages, IsShown, is_counted};
ghost use Rattle.map_job.specs.Mapped.{IsMapped};
ghost use Rattle.map_job.specs.Said.{chosen_said, image_said, mapping_said};

use crate::MappingFault;
use crate::choosing::choose;
use crate::digesting::map_measured;
use crate::measuring::measure;
use crate::writing::write_map;
use base_fields::Name;
use image_graph::{Graph, ImageSpec};
use outside::Files;
use region_pool::Pool;
use std::alloc::Global;

/// How many bytes pass at a time.
const BUFFER: u32 = 1 << 20;

/// A block map that is written.
#[derive(Clone, Copy, Debug, PartialEq, Eq)]
pub struct Mapped {
    /// How many ranges it has.
    pub ranges: u64,
    /// How many blocks are in these.
    pub blocks: u64,
}

/// Writes the block map of the built image of that section's name to the file `out`, in blocks of `block` bytes: the blocks
/// that hold what the image's layout covers, or all of an Android sparse image, with the SHA-256 digest of each range of its
/// file. `texts` are the names of the texts that were read. Each byte that the map names is read once, through one buffer.
/// Takes the memory of that buffer, of the layout, of the map and of its text. After a fault of the writing `out` may hold
/// any bytes.
pub fn map_image<F: Files>(
    alloc: Global,
    files: &mut F,
    texts: &[Name],
    graph: &Graph,
    image: &str,
    out: &str,
    block: u32,
) -> Result<Mapped, MappingFault>
    requires graph { IsGraph graph.now }
    requires specs { All IsSpec graph.now.specs }
    requires block { IsPowerBetween 512 65536 block }

    // Over told files: the map of the image is written, or the first refusal is answered, or a counted fault.
    ensures made { F.told → IfOk result (λ mapped. IsOkAnd (mapping_said texts.now graph.now (F.file files.old) image.now out.now)
        (λ wanted. IsMapped wanted block (F.file files.new out.now) mapped)) }
    ensures refused { F.told → IfErr result (Refuses is_counted (mapping_said texts.now graph.now (F.file files.old) image.now out.now)) }

    // Told or not: a refusal of the choice exactly where it is refused, a fault of the files only where its count rose, and
    // no file changed before the writing.
    ensures chosen { OnOk result (IsOk (chosen_said texts.now graph.now.specs image.now out.now)) }
    ensures behind { IfErr result (IsBehind (chosen_said texts.now graph.now.specs image.now out.now)) }
    ensures cause { IfErr result (IsShown (F.counts files.old) (F.counts files.new)) }
    ensures image { IfErr result (IsOfImages (length graph.now.specs)) }
    ensures kept { IfErr result (IsKept (F.file files.old) (F.file files.new)) }
    ensures none_fell { NoneFell (F.counts files.old) (F.counts files.new) }

    ensures others { OthersStay out.now (F.file files.old) (F.file files.new) }
{
    let number = choose(texts, graph, image, out)?;
    let mut pool = Pool::new(alloc, 0, 1, BUFFER)?;
    let spec = &graph.specs.as_slice()[number as usize];
    let mapped = map_spec(alloc, files, number, spec, out, block, &mut pool)?;
    Ok(mapped)
}

// Writes the map of the image of that number.
fn map_spec<F: Files>(
    alloc: Global,
    files: &mut F,
    number: u32,
    spec: &ImageSpec,
    out: &str,
    block: u32,
    pool: &mut Pool,
) -> Result<Mapped, MappingFault>
    requires free { 0 < free_of pool.old }
    requires spec { IsSpec spec.now }
    requires block { IsPowerBetween 512 65536 block }
    ensures made { F.told → IfOk result (λ mapped. IsOkAnd (image_said (F.file files.old) number spec.now)
        (λ wanted. IsMapped wanted block (F.file files.new out.now) mapped)) }
    ensures refused { F.told → IfErr result (Refuses is_counted (image_said (F.file files.old) number spec.now)) }
    ensures cause { IfErr result (IsShown (F.counts files.old) (F.counts files.new)) }
    ensures image { IfErr result (IsOf number) }
    ensures kept { IfErr result (IsKept (F.file files.old) (F.file files.new)) }
    ensures none_fell { NoneFell (F.counts files.old) (F.counts files.new) }
    ensures others { OthersStay out.now (F.file files.old) (F.file files.new) }
{
    let measured = measure(alloc, files, number, spec)?;
    let map = map_measured(
        alloc,
        files,
        number,
        spec.full.text(),
        &measured,
        block,
        pool,
    )?;
    write_map(alloc, files, &map, out)?;
    Ok(Mapped {
        ranges: map.ranges.len() as u64,
        blocks: map.mapped_count(),
    })
}
