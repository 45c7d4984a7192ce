//! A target under its word.
ghost use Rattle.std.specs.Prelude.{◌≡◌, ◌+◌, ◌*◌, ◌/◌, ◌<◌, IfErr, IfOk, OnOk, length};
ghost use Rattle.bench.specs.Disk.{Looked, StillLeaves};
ghost use Rattle.bench.specs.Meter.{CostsOn, HasNoOther};
ghost use Rattle.bench.specs.declared.Dev.{Dev};
ghost use Rattle.block_map.specs.Maps.{IsMap};
ghost use Rattle.region_pool.specs.Buffers.{free_of};
ghost use Rattle.verifier.specs.Checks.{IsFirstDifference, IsVerified, IsVerifyFault, TellsSize, digests_among};
ghost use Rattle.verify_job.specs.Devices.{Attached, most_work};

use bench::{Bench, Dev};
use block_map::BlockMap;
use region_pool::Pool;
use verifier::{VerifyFault, verify};

/// Attaches the target under that name, and compares it with a map through one buffer of the pool. Takes no memory.
pub fn verify_under<B: Bench>(
    bench: &mut B,
    map: &BlockMap,
    pool: &mut Pool,
    target: &str,
) -> Result<u64, VerifyFault>
    requires name { HasNoOther (B.meter bench.old) Dev.Target target.now }
    requires map { IsMap map.now }
    requires free { 0 < free_of pool.old }
    ensures counted { IfOk result (λ count. count ≡ digests_among map.now.ranges) }
    ensures verified { B.told → OnOk result (IsVerified map.now ((B.disk bench.old).reads Dev.Target)) }
    ensures too_small { B.told → TellsSize map.now (length ((B.disk bench.old).reads Dev.Target)) result }
    ensures differs { B.told → IfErr result (IsFirstDifference map.now ((B.disk bench.old).reads Dev.Target)) }
    ensures cause { IfErr result (IsVerifyFault map.now (B.meter bench.old) (B.meter bench.new)) }
    ensures looked { Looked (B.disk bench.old) (B.disk bench.new) }
    ensures stays { (each : Dev) → StillLeaves each (B.disk bench.old) (B.disk bench.new) }
    ensures attached { Attached target.now (B.meter bench.old) (B.meter bench.new) result }
    ensures bill { CostsOn Dev.Target (most_work (length target.now) map.now) (B.meter bench.old) (B.meter bench.new) }
{
    bench.attach(Dev::Target, target)?;
    let count = verify(bench, map, pool)?;
    Ok(count)
}
