//! The job of a copier.
ghost use Rattle.std.specs.Prelude.{OnOk, IfOk};
ghost use Rattle.block_map.specs.Maps.{IsMap};
ghost use Rattle.journal_format.specs.Journals.{IsWindow};
ghost use Rattle.copier_course.specs.Courses.{IsCopyJob};

use anyhow::{Result, bail};
use base_fields::Name;
use copier::{CopyJob, Mode};
use journal_format::JobId;
use map_source::MapSource;
use std::alloc::Global;

/// The job that copies the file `source` by a map in units of so many bytes.
pub fn job_of(
    alloc: Global,
    source: Name,
    map: MapSource,
    unit: u32,
    mode: Mode,
    window: u32,
) -> Result<CopyJob>
    requires map { IsMap map.map }
    ensures job { IfOk result IsCopyJob }
    ensures window { IfOk result (λ job. IsWindow job.window) }
{
    if !unit.is_power_of_two() || unit < 65_536 || unit > 4_194_304 {
        bail!("no size of a unit");
    }
    if window == 0 || window > 16 {
        bail!("a window is from 1 to 16");
    }
    let units = match map.map.units(alloc, unit) {
        Ok(units) => units,
        Err(fault) => bail!("no units: {fault:?}"),
    };
    let id = JobId {
        digest: map.digest,
        size: map.map.size,
        block: map.map.block,
        unit,
        units: units.count(),
        ranges: map.map.ranges.len() as u64,
    };
    Ok(CopyJob {
        source,
        map: map.map,
        units,
        id,
        mode,
        window,
    })
}
