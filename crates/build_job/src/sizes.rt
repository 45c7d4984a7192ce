//! The lengths of the files of images that are built.
ghost use Rattle.std.specs.Prelude.{◌≡◌, ℕ, ◌<◌, All, IfErr, IfOk, length};
ghost use Rattle.build_laws.specs.Order.{ordered};
ghost use Rattle.image_graph.specs.IsGraph.{IsGraph};
ghost use Rattle.outside.specs.Counts.{NoneFell};
ghost use Rattle.outside.specs.Files.{bytes_of};
ghost use Rattle.build_job.specs.Faults.{IsOfImages, IsShown, IsUnmeasured};
ghost use Rattle.build_job.specs.Files.{HasFile};
ghost use Rattle.build_job.specs.Said.{sizes_of};

use crate::BuildFault;
use base_fields::{List, Name};
use image_graph::Graph;
use outside::{FileErr, Files};
use std::alloc::Global;

/// The length of each image's file in bytes, in the order of the graph. Each is asked for once, up to the first that is not
/// given, and none is changed. Takes the memory of the lengths.
pub fn lengths<F: Files>(
    alloc: Global,
    files: &mut F,
    graph: &Graph,
) -> Result<List<u64>, BuildFault>
    requires graph { IsGraph graph.now }
    requires there { F.told → All (HasFile (F.file files.old)) (ordered graph.now) }
    ensures sizes { F.told → IfOk result (λ sizes. sizes ≡ sizes_of graph.now (F.file files.old)) }
    ensures unmeasured { F.told → IfErr result IsUnmeasured }
    ensures cause { IfErr result (IsShown (F.counts files.old) (F.counts files.new)) }
    ensures image { IfErr result (IsOfImages (length graph.now.specs)) }
    ensures each { IfOk result (λ sizes. length sizes ≡ length graph.now.order) }
    ensures none_fell { NoneFell (F.counts files.old) (F.counts files.new) }
    ensures same_files { F.file files.new ≡ F.file files.old }
{
    let specs = graph.specs.as_slice();
    let mut sizes = List::new(alloc);
    for image in graph.order.as_slice() {
        let len = length_of(files, *image, &specs[*image as usize].full)?;
        sizes.push(len)?;
    }
    Ok(sizes)
}

// The length of the file of the image of that number.
fn length_of<F: Files>(files: &mut F, image: u32, name: &Name) -> Result<u64, BuildFault>
    ensures exact { F.told → F.file files.old name.now ≡ Some (bytes_of (F.file files.old) name.now) → IfOk result (λ len. len ≡ length (bytes_of (F.file files.old) name.now)) }
    ensures unmeasured { F.told → F.file files.old name.now ≡ Some (bytes_of (F.file files.old) name.now) → IfErr result IsUnmeasured }
    ensures cause { IfErr result (IsShown (F.counts files.old) (F.counts files.new)) }
    ensures image { (n : ℕ) → image < n → IfErr result (IsOfImages n) }
    ensures none_fell { NoneFell (F.counts files.old) (F.counts files.new) }
    ensures same_files { F.file files.new ≡ F.file files.old }
{
    match files.length(name.text()) {
        Ok(len) => Ok(len),
        Err(fault) => Err(BuildFault::Measure { image, fault }),
    }
}
