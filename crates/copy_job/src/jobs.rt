//! The job that a request asks for.
ghost use Rattle.std.specs.Prelude.{◌≡◌, IfErr, IfOk, IsOk, OnOk};
ghost use Rattle.base_fields.specs.Numbers.{IsPowerBetween};
ghost use Rattle.bench.specs.Meter.{Meter};
ghost use Rattle.block_map.specs.Maps.{IsMap};
ghost use Rattle.copier_course.specs.Courses.{IsCopyJob};
ghost use Rattle.job_stages.specs.Stages.{Gives, Refuses};
ghost use Rattle.outside.specs.Counts.{Counts, NoneFell};
ghost use Rattle.copy_job.specs.Faults.{IsShown, is_counted};
ghost use Rattle.copy_job.specs.Said.{copying_said, is_compressed, job_in, source_said};
ghost use Rattle.copy_job.specs.Stages.{IsEarly, IsOfRequest};

use crate::{CopyJobFault, CopyRequest};
use base_fields::Name;
use block_map::UnitFault;
use copier::CopyJob;
use journal_format::JobId;
use map_source::{MapSource, read_map};
use outside::{FileErr, Files};
use std::alloc::Global;

/// Whether a name ends as that of a file does that is compressed, or holds others.
fn is_compressed(name: &[u8]) -> bool
    ensures { result ≡ is_compressed name.now }
{
    name.ends_with(b".gz")
        || name.ends_with(b".bz2")
        || name.ends_with(b".xz")
        || name.ends_with(b".zst")
        || name.ends_with(b".lz4")
        || name.ends_with(b".lzma")
        || name.ends_with(b".zip")
        || name.ends_with(b".tar")
}

/// Asks for the length of the source, whose name is to be that of a file that isn't compressed.
fn find_source<F: Files>(files: &mut F, name: &str) -> Result<(), CopyJobFault>
    ensures none_fell { NoneFell (F.counts files.old) (F.counts files.new) }
    ensures same_files { F.file files.new ≡ F.file files.old }
    ensures found { F.told → OnOk result (IsOk (source_said (F.file files.old) name.now)) }
    ensures refused { F.told → IfErr result (Refuses is_counted (source_said (F.file files.old) name.now)) }
    ensures early { IfErr result IsEarly }
    ensures cause { (old new : Meter) → IfErr result (IsShown (F.counts files.old) (F.counts files.new) old new) }
{
    if is_compressed(name.as_bytes()) {
        return Err(CopyJobFault::Compressed);
    }
    match files.length(name) {
        Ok(_) => Ok(()),
        Err(FileErr::Missing) => Err(CopyJobFault::Missing),
        Err(FileErr::Failed) => Err(CopyJobFault::FileFault),
    }
}

/// The job of a request, by the map that was read. Takes memory for the units and for the source's name.
fn job_in(alloc: Global, request: &CopyRequest, source: MapSource) -> Result<CopyJob, CopyJobFault>
    requires map { IsMap source.map }
    requires unit { IsPowerBetween 65536 4194304 request.now.unit }
    ensures said { Gives is_counted (job_in request.now source) (λ job. job) (λ fault. fault) result }
    ensures holds { IfOk result IsCopyJob }
    ensures request { IfOk result (IsOfRequest request.now) }
    ensures early { IfErr result IsEarly }
    ensures cause { (before now : Counts) (old new : Meter) → IfErr result (IsShown before now old new) }
{
    let units = match source.map.units(alloc, request.unit) {
        Ok(units) => units,
        Err(UnitFault::TooManyUnits { count, limit }) => {
            return Err(CopyJobFault::TooManyUnits { count, limit });
        }
        Err(UnitFault::NoMemory) => return Err(CopyJobFault::NoMemory),
    };
    let Ok(name) = Name::of(alloc, request.source.text()) else {
        return Err(CopyJobFault::NoMemory);
    };
    let id = JobId {
        digest: source.digest,
        size: source.map.size,
        block: source.map.block,
        unit: request.unit,
        units: units.count(),
        ranges: source.map.ranges.len() as u64,
    };
    Ok(CopyJob {
        source: name,
        map: source.map,
        units,
        id,
        mode: request.mode,
        window: request.window,
    })
}

/// The job of a request: the source is looked for, its map is read, and cut into units.
pub fn job_of_request<F: Files>(
    alloc: Global,
    files: &mut F,
    request: &CopyRequest,
) -> Result<CopyJob, CopyJobFault>
    requires unit { IsPowerBetween 65536 4194304 request.now.unit }
    ensures said { F.told → Gives is_counted (copying_said (F.file files.old) request.now) (λ job. job) (λ fault. fault) result }
    ensures holds { IfOk result IsCopyJob }
    ensures request { IfOk result (IsOfRequest request.now) }
    ensures early { IfErr result IsEarly }
    ensures none_fell { NoneFell (F.counts files.old) (F.counts files.new) }
    ensures same_files { F.file files.new ≡ F.file files.old }
    ensures cause { (old new : Meter) → IfErr result (IsShown (F.counts files.old) (F.counts files.new) old new) }
{
    find_source(files, request.source.text())?;
    let source = match read_map(alloc, files, request.map.text()) {
        Ok(source) => source,
        Err(fault) => return Err(CopyJobFault::Map(fault)),
    };
    job_in(alloc, request, source)
}
