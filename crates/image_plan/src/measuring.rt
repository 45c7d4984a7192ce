//! The lengths of the files of an image's sources.
ghost use Rattle.std.specs.Prelude.{◌≡◌, None, IfErr, IfOk};
ghost use Rattle.outside.specs.Counts.{NoneFell};
ghost use Rattle.job_stages.specs.Stages.{Gives};
ghost use Rattle.placement_apart.specs.Apart.{AreLengths};
ghost use Rattle.image_plan.specs.Faults.{IsLengthFault, IsOwnFault, IsShown, is_counted};
ghost use Rattle.image_plan.specs.Lengths.{length_said, lengths_said};

use crate::PlanFault;
use base_fields::List;
use image_specs::Source;
use outside::{FileErr, Files};
use std::alloc::Global;

/// The length of each source's file in bytes, and 0 where it has none, in order. The files are asked in that order, each
/// once, up to the first that isn't there. Takes memory.
pub fn lengths<F: Files>(
    alloc: Global,
    files: &mut F,
    sources: &[Source],
) -> Result<List<u64>, PlanFault>
    ensures said { F.told → Gives is_counted (lengths_said (F.file files.old) sources.now) (λ lens. lens) (λ fault. fault) result }
    ensures cause { IfErr result (IsShown (F.counts files.old) (F.counts files.new)) }
    ensures fault { IfErr result (IsLengthFault sources.now) }
    ensures none_fell { NoneFell (F.counts files.old) (F.counts files.new) }
    ensures same_files { F.file files.new ≡ F.file files.old }
    ensures lengths { IfOk result (AreLengths sources.now) }
{
    let mut lens = List::new(alloc);
    for (k, source) in sources.iter().enumerate() {
        lens.push(length_of(files, k, source)?)?;
    }
    Ok(lens)
}

// The same of the source of that number.
fn length_of<F: Files>(files: &mut F, number: usize, source: &Source) -> Result<u64, PlanFault>
    ensures said { F.told → Gives is_counted (length_said (F.file files.old) number source.now) (λ len. len) (λ fault. fault) result }
    ensures cause { IfErr result (IsShown (F.counts files.old) (F.counts files.new)) }
    ensures fault { IfErr result (IsOwnFault number source.now) }
    ensures none_fell { NoneFell (F.counts files.old) (F.counts files.new) }
    ensures same_files { F.file files.new ≡ F.file files.old }
    ensures none { IfOk result (λ len. source.now.file ≡ None → len ≡ 0) }
{
    let Some(name) = &source.file else {
        return Ok(0);
    };
    match files.length(name.text()) {
        Ok(len) => Ok(len),
        Err(FileErr::Missing) => Err(PlanFault::Missing { source: number }),
        Err(FileErr::Failed) => Err(PlanFault::FileFault),
    }
}
