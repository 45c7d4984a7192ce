//! What counts of that which is put into a sparse image.
ghost use Rattle.std.specs.Prelude.{◌≡◌, ℕ, ◌<◌, ◌≤◌, ◌^◌, All, IfErr, IfOk, IsOkAnd, IsTrue, length};
ghost use Rattle.build_laws.specs.Builds.{IsCoverFor, IsCoverOf, IsWhole, child_in};
ghost use Rattle.image_graph.specs.IsGraph.{IsMadeOf};
ghost use Rattle.image_plan.specs.Plans.{is_planned, plan_said};
ghost use Rattle.image_specs.specs.IsSpec.{IsSpec};
ghost use Rattle.outside.specs.Counts.{NoneFell};
ghost use Rattle.build_job.specs.Faults.{IsCoverRefused, IsLaidCoverRefused, IsOfImages, IsShown};

use crate::BuildFault;
use crate::kinds::has_layout;
use base_fields::{NoMemory, Span};
use image_plan::plan_image;
use image_specs::{ImageSpec, Source};
use outside::Files;
use span_cover::Cover;
use std::alloc::Global;

/// The offsets that count of a source's file of that many bytes: of an image that is built for it and has a layout, those
/// that the layout by the files as they are covers, and of another file all. No file is read or changed. Takes memory.
pub fn cover_of<F: Files>(
    alloc: Global,
    files: &mut F,
    specs: &[ImageSpec],
    source: &Source,
    len: u64,
) -> Result<Cover, BuildFault>
    requires specs { All IsSpec specs.now }
    requires child { IsMadeOf specs.now source.now }
    requires small { len ≤ 2 ^ 43 }
    ensures counts { F.told → IfOk result (λ cover. IsCoverFor (F.file files.old) len cover (child_in specs.now source.now)) }
    ensures refused { F.told → IfErr result (IsCoverRefused specs.now source.now (F.file files.old)) }
    ensures cause { IfErr result (IsShown (F.counts files.old) (F.counts files.new)) }
    ensures image { IfErr result (IsOfImages (length specs.now)) }
    ensures none_fell { NoneFell (F.counts files.old) (F.counts files.new) }
    ensures same_files { F.file files.new ≡ F.file files.old }
{
    let Some(number) = source.child else {
        return Ok(whole(alloc, len)?);
    };
    let child = &specs[number as usize];
    if !has_layout(child.kind) {
        return Ok(whole(alloc, len)?);
    }
    let cover = laid(alloc, files, number, child)?;
    Ok(cover)
}

// All of so many bytes.
fn whole(alloc: Global, len: u64) -> Result<Cover, NoMemory>
    requires { len ≤ 2 ^ 43 }
    ensures { IfOk result (IsWhole len) }
{
    let mut cover = Cover::new(alloc);
    cover.add(Span { at: 0, len })?;
    Ok(cover)
}

// What an image's layout covers.
fn laid<F: Files>(
    alloc: Global,
    files: &mut F,
    number: u32,
    spec: &ImageSpec,
) -> Result<Cover, BuildFault>
    requires spec { IsSpec spec.now }
    requires kind { IsTrue (is_planned spec.now.kind) }
    ensures counts { F.told → IfOk result (λ cover. IsOkAnd (plan_said (F.file files.old) spec.now) (IsCoverOf cover)) }
    ensures refused { F.told → IfErr result (IsLaidCoverRefused number spec.now (F.file files.old)) }
    ensures cause { IfErr result (IsShown (F.counts files.old) (F.counts files.new)) }
    ensures image { (n : ℕ) → number < n → IfErr result (IsOfImages n) }
    ensures none_fell { NoneFell (F.counts files.old) (F.counts files.new) }
    ensures same_files { F.file files.new ≡ F.file files.old }
{
    let layout = match plan_image(alloc, files, spec) {
        Ok(layout) => layout,
        Err(fault) => return Err(BuildFault::Plan {
            image: number,
            fault,
        }),
    };
    let cover = layout.covered(alloc)?;
    Ok(cover)
}
