//! The length of what is put into a sparse image.
ghost use Rattle.std.specs.Prelude.{◌≡◌, ◌≤◌, ◌^◌, IfErr, IfOk, nat_le};
ghost use Rattle.base_fields.specs.Results.{when};
ghost use Rattle.image_plan.specs.Faults.{IsShown, is_counted};
ghost use Rattle.image_plan.specs.Lengths.{length_said};
ghost use Rattle.image_plan.specs.declared.faults.PlanFault.TheVariants.{Place};
ghost use Rattle.job_stages.specs.Stages.{Gives};
ghost use Rattle.outside.specs.Counts.{Counts, NoneFell};
ghost use Rattle.placement_rules.specs.declared.faults.PlaceFault.TheVariants.{TooFar};
ghost use Rattle.build_job.specs.Said.{first_source, sparse_said};

use base_fields::Name;
use image_plan::{PlaceFault, PlanFault};
use image_specs::{ImageSpec, Source};
use outside::{FileErr, Files};
use std::alloc::Global;

/// The most bytes that an image may have.
const LONGEST: u64 = 1 << 43;

/// The length in bytes of the file of a sparse image's one source, or why that is none. The file is asked for once, and
/// none is changed. Takes memory for the name in a fault alone.
pub fn sparse_length<F: Files>(
    alloc: Global,
    files: &mut F,
    spec: &ImageSpec,
    source: &Source,
) -> Result<u64, PlanFault>
    requires { first_source spec.now ≡ source.now }
    ensures said { F.told → Gives is_counted (sparse_said (F.file files.old) spec.now) (λ len. len) (λ fault. fault) result }
    ensures cause { IfErr result (IsShown (F.counts files.old) (F.counts files.new)) }
    ensures small { IfOk result (λ len. len ≤ 2 ^ 43) }
    ensures none_fell { NoneFell (F.counts files.old) (F.counts files.new) }
    ensures same_files { F.file files.new ≡ F.file files.old }
{
    let len = length_of(files, source)?;
    let len = within(alloc, &spec.name, len)?;
    Ok(len)
}

// The length of a source's file, and 0 where it has none.
fn length_of<F: Files>(files: &mut F, source: &Source) -> Result<u64, PlanFault>
    ensures said { F.told → Gives is_counted (length_said (F.file files.old) 0 source.now) (λ len. len) (λ fault. fault) result }
    ensures cause { IfErr result (IsShown (F.counts files.old) (F.counts files.new)) }
    ensures none_fell { NoneFell (F.counts files.old) (F.counts files.new) }
    ensures same_files { F.file files.new ≡ F.file files.old }
{
    let Some(name) = &source.file else {
        return Ok(0);
    };
    match files.length(name.text()) {
        Ok(len) => Ok(len),
        Err(FileErr::Missing) => Err(PlanFault::Missing { source: 0 }),
        Err(FileErr::Failed) => Err(PlanFault::FileFault),
    }
}

// That length, where it is at most 2^43; else a fault with the image's name.
fn within(alloc: Global, image: &Name, len: u64) -> Result<u64, PlanFault>
    ensures said { Gives is_counted (when (nat_le len (2 ^ 43)) len (Place (TooFar image.now len (2 ^ 43)))) (λ len. len) (λ fault. fault) result }
    ensures small { IfOk result (λ len. len ≤ 2 ^ 43) }
    ensures shown { IfErr result (λ fault. (before now : Counts) → IsShown before now fault) }
{
    if len > LONGEST {
        return Err(PlanFault::Place(PlaceFault::TooFar {
            part: Name::of(alloc, image.text())?,
            number: len,
            limit: LONGEST,
        }));
    }
    Ok(len)
}
