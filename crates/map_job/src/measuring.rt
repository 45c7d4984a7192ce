//! What of an image counts: its plan by the files as they are, and then its own file.
ghost use Rattle.std.specs.Prelude.{◌≡◌, ℕ, ◌<◌, ◌≤◌, ◌∷◌, ◌^◌, [], List, Some, IfErr, IfOk, IsOkAnd, IsTrue, OnOk, false, length};
ghost use Rattle.block_map.specs.Maps.{max_ranges};
ghost use Rattle.build_laws.specs.Builds.{IsWhole};
ghost use Rattle.image_plan.specs.Plans.{is_planned};
ghost use Rattle.image_specs.specs.IsSpec.{IsOneSource, IsSpec};
ghost use Rattle.job_stages.specs.Stages.{Refuses};
ghost use Rattle.outside.specs.Counts.{Counts, NoneFell};
ghost use Rattle.map_job.specs.Faults.{IsOf, IsShown, is_counted};
ghost use Rattle.map_job.specs.Mapped.{IsMeasured};
ghost use Rattle.map_job.specs.Said.{bytes_said, image_said, laid_said, sparse_image_said, whole_said};

use crate::MappingFault;
use base_fields::{Name, NoMemory, Span};
use build_job::sparse_length;
use conf_keys::Kind;
use image_graph::{ImageSpec, Source};
use image_plan::{PlaceFault, PlanFault, plan_image};
use outside::Files;
use span_cover::Cover;
use std::alloc::Global;

/// The most bytes that an image may have.
const LONGEST: u64 = 1 << 43;

/// How many bytes an image's file has, and which of these count.
#[derive(Drop)]
pub struct Measured {
    pub size: u64,
    pub cover: Cover,
}

/// What of the image of that number counts. The lengths of its sources' files are asked for, it is placed, and the length of
/// its own file is asked for. No file is read or changed. Takes memory.
pub fn measure<F: Files>(
    alloc: Global,
    files: &mut F,
    number: u32,
    spec: &ImageSpec,
) -> Result<Measured, MappingFault>
    requires spec { IsSpec spec.now }
    ensures measured { F.told → IfOk result (λ measured. IsOkAnd (image_said (F.file files.old) number spec.now)
        (IsMeasured (F.file files.old spec.now.full) measured)) }
    ensures refused { F.told → IfErr result (Refuses is_counted (image_said (F.file files.old) number spec.now)) }
    ensures small { IfOk result (λ measured. measured.size ≤ 2 ^ 43) }
    ensures few { IfOk result (λ measured. length measured.cover ≤ max_ranges) }
    ensures cause { IfErr result (IsShown (F.counts files.old) (F.counts files.new)) }
    ensures image { IfErr result (IsOf number) }
    ensures none_fell { NoneFell (F.counts files.old) (F.counts files.new) }
    ensures same_files { F.file files.new ≡ F.file files.old }
{
    if has_layout(spec.kind) {
        measure_laid(alloc, files, number, spec)
    } else {
        measure_sparse(alloc, files, number, spec)
    }
}

fn has_layout(kind: Kind) -> bool
    ensures { result ≡ is_planned kind }
{
    match kind {
        Kind::Hd | Kind::Plain | Kind::Flash => true,
        Kind::Sparse | Kind::Ready => false,
    }
}

// That of an image that has a layout.
fn measure_laid<F: Files>(
    alloc: Global,
    files: &mut F,
    number: u32,
    spec: &ImageSpec,
) -> Result<Measured, MappingFault>
    requires spec { IsSpec spec.now }
    requires kind { IsTrue (is_planned spec.now.kind) }
    ensures measured { F.told → IfOk result (λ measured. IsOkAnd (laid_said (F.file files.old) number spec.now)
        (IsMeasured (F.file files.old spec.now.full) measured)) }
    ensures refused { F.told → IfErr result (Refuses is_counted (laid_said (F.file files.old) number spec.now)) }
    ensures small { IfOk result (λ measured. measured.size ≤ 2 ^ 43) }
    ensures few { IfOk result (λ measured. length measured.cover ≤ max_ranges) }
    ensures cause { IfErr result (IsShown (F.counts files.old) (F.counts files.new)) }
    ensures image { IfErr result (IsOf number) }
    ensures none_fell { NoneFell (F.counts files.old) (F.counts files.new) }
    ensures same_files { F.file files.new ≡ F.file files.old }
{
    let layout = match plan_image(alloc, files, spec) {
        Ok(layout) => layout,
        Err(fault) => return Err(MappingFault::Plan {
            image: number,
            fault,
        }),
    };
    let size = length_of(files, number, spec)?;
    if size != layout.size {
        return Err(MappingFault::ImageStale {
            has: size,
            needs: layout.size,
        });
    }
    let cover = layout.covered(alloc)?;
    Ok(Measured { size, cover })
}

// That of an Android sparse image, of which all counts.
fn measure_sparse<F: Files>(
    alloc: Global,
    files: &mut F,
    number: u32,
    spec: &ImageSpec,
) -> Result<Measured, MappingFault>
    requires spec { IsSpec spec.now }
    requires kind { is_planned spec.now.kind ≡ false }
    ensures measured { F.told → IfOk result (λ measured. IsOkAnd (sparse_image_said (F.file files.old) number spec.now)
        (IsMeasured (F.file files.old spec.now.full) measured)) }
    ensures refused { F.told → IfErr result (Refuses is_counted (sparse_image_said (F.file files.old) number spec.now)) }
    ensures small { IfOk result (λ measured. measured.size ≤ 2 ^ 43) }
    ensures few { IfOk result (λ measured. length measured.cover ≤ max_ranges) }
    ensures cause { IfErr result (IsShown (F.counts files.old) (F.counts files.new)) }
    ensures image { IfErr result (IsOf number) }
    ensures none_fell { NoneFell (F.counts files.old) (F.counts files.new) }
    ensures same_files { F.file files.new ≡ F.file files.old }
{
    match sparse_length(alloc, files, spec, one_source(spec)) {
        Ok(_) => {}
        Err(fault) => return Err(MappingFault::Plan {
            image: number,
            fault,
        }),
    }
    let size = length_of(files, number, spec)?;
    let measured = all_of(alloc, number, spec, size)?;
    Ok(measured)
}

// The one source of an image that has one.
fn one_source(spec: &ImageSpec) -> &Source
    requires { IsOneSource spec.now.sources }
    ensures { spec.now.sources ≡ result.now ∷ [] }
{
    &spec.sources.as_slice()[0]
}

// The length of an image's own file.
fn length_of<F: Files>(files: &mut F, number: u32, spec: &ImageSpec) -> Result<u64, MappingFault>
    ensures exact { F.told → IfOk result (λ len. IsOkAnd (bytes_said (F.file files.old) number spec.now) (λ bytes. length bytes ≡ len)) }
    ensures refused { F.told → IfErr result (Refuses is_counted (bytes_said (F.file files.old) number spec.now)) }
    ensures cause { IfErr result (IsShown (F.counts files.old) (F.counts files.new)) }
    ensures image { IfErr result (IsOf number) }
    ensures none_fell { NoneFell (F.counts files.old) (F.counts files.new) }
    ensures same_files { F.file files.new ≡ F.file files.old }
{
    match files.length(spec.full.text()) {
        Ok(len) => Ok(len),
        Err(fault) => Err(MappingFault::Measure {
            image: number,
            fault,
        }),
    }
}

// All of so many bytes, where an image may have as many.
fn all_of(alloc: Global, number: u32, spec: &ImageSpec, size: u64) -> Result<Measured, MappingFault>
    ensures measured { (bytes : List ℕ) → length bytes ≡ size
        → IfOk result (λ measured. IsOkAnd (whole_said number spec.now bytes) (IsMeasured (Some bytes) measured)) }
    ensures refused { (bytes : List ℕ) → length bytes ≡ size → IfErr result (Refuses is_counted (whole_said number spec.now bytes)) }
    ensures small { IfOk result (λ measured. measured.size ≤ 2 ^ 43) }
    ensures few { IfOk result (λ measured. length measured.cover ≤ max_ranges) }
    ensures shown { IfErr result (λ fault. (before now : Counts) → IsShown before now fault) }
    ensures image { IfErr result (IsOf number) }
{
    within(alloc, number, spec, size)?;
    let measured = whole(alloc, size)?;
    Ok(measured)
}

fn within(alloc: Global, number: u32, spec: &ImageSpec, size: u64) -> Result<(), MappingFault>
    ensures small { OnOk result (size ≤ 2 ^ 43) }
    ensures refused { (bytes : List ℕ) → length bytes ≡ size → IfErr result (Refuses is_counted (whole_said number spec.now bytes)) }
    ensures shown { IfErr result (λ fault. (before now : Counts) → IsShown before now fault) }
    ensures image { IfErr result (IsOf number) }
{
    if size > LONGEST {
        return Err(MappingFault::Plan {
            image: number,
            fault: PlanFault::Place(PlaceFault::TooFar {
                part: Name::of(alloc, spec.name.text())?,
                number: size,
                limit: LONGEST,
            }),
        });
    }
    Ok(())
}

fn whole(alloc: Global, size: u64) -> Result<Measured, NoMemory>
    requires { size ≤ 2 ^ 43 }
    ensures size { IfOk result (λ measured. measured.size ≡ size) }
    ensures cover { IfOk result (λ measured. IsWhole size measured.cover) }
    ensures few { IfOk result (λ measured. length measured.cover ≤ max_ranges) }
{
    let mut cover = Cover::new(alloc);
    cover.add(Span { at: 0, len: size })?;
    Ok(Measured { size, cover })
}
