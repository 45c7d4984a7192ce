//! The map of a file, and the target that it is compared with.
ghost use Rattle.std.specs.Prelude.{◌≡◌, IfErr, length};
ghost use Rattle.bench.specs.Disk.{Looked, StillLeaves};
ghost use Rattle.bench.specs.Meter.{CostsOn, HasNoOther};
ghost use Rattle.bench.specs.declared.Dev.{Dev};
ghost use Rattle.map_source.specs.Said.{map_said};
ghost use Rattle.outside.specs.Counts.{NoneFell};
ghost use Rattle.verify_job.specs.Answers.{MapAnswers, Verifies};
ghost use Rattle.verify_job.specs.Devices.{IsAttachedOr, IsBounded, Names, Untouched, work_said};
ghost use Rattle.verify_job.specs.Faults.{IsShown};

use crate::VerifyJobFault;
use crate::targets::verify_under;
use bench::Bench;
use map_source::read_map;
use outside::Files;
use region_pool::Pool;
use std::alloc::Global;

/// The bytes of the buffer through which the target is read.
const BUFFER: u32 = 1_048_576;

/// Compares the target with the map that the file `map` has, and gives the number of ranges that have a digest. The
/// target is attached under the name `target` once the map is read and the memory for one buffer of 1 MiB is taken.
pub fn verify_target<F: Files, B: Bench>(
    alloc: Global,
    files: &mut F,
    bench: &mut B,
    map: &str,
    target: &str,
) -> Result<u64, VerifyJobFault>
    requires { HasNoOther (B.meter bench.old) Dev.Target target.now }

    // Over told files: the fault of the map, or an answer by the map that is said. Over a told bench, too: Ok exactly
    // where the target has what that map says.
    ensures said { F.told → MapAnswers (map_said (F.file files.old map.now)) result }
    ensures verified { F.told → B.told →
        Verifies (map_said (F.file files.old map.now)) ((B.disk bench.old).reads Dev.Target) result }

    // Told or not.
    ensures cause { IfErr result
        (IsShown (F.counts files.old) (F.counts files.new) (B.meter bench.old) (B.meter bench.new)) }
    ensures none_fell { NoneFell (F.counts files.old) (F.counts files.new) }
    ensures same_files { F.file files.new ≡ F.file files.old }

    // The devices, whatever is answered.
    ensures untouched { Untouched bench.old bench.new result }
    ensures looked { Looked (B.disk bench.old) (B.disk bench.new) }
    ensures stays { (each : Dev) → StillLeaves each (B.disk bench.old) (B.disk bench.new) }
    ensures names { Names target.now (B.meter bench.old) (B.meter bench.new) result }
    ensures attached { IsAttachedOr target.now (B.meter bench.old) (B.meter bench.new) }
    ensures bill { F.told →
        CostsOn Dev.Target (work_said (length target.now) (map_said (F.file files.old map.now)))
        (B.meter bench.old) (B.meter bench.new) }
    ensures bounded { IsBounded (length target.now) (B.meter bench.old) (B.meter bench.new) }
{
    let source = match read_map(alloc, files, map) {
        Ok(source) => source,
        Err(fault) => return Err(VerifyJobFault::Map(fault)),
    };
    let Ok(mut pool) = Pool::new(alloc, 0, 1, BUFFER) else {
        return Err(VerifyJobFault::NoMemory);
    };
    match verify_under(bench, &source.map, &mut pool, target) {
        Ok(count) => Ok(count),
        Err(fault) => Err(VerifyJobFault::from(fault)),
    }
}
