ghost use Rattle.std.specs.Prelude.{◌≡◌, ◌+◌, ◌*◌, ◌/◌, ◌<◌, ◌≤◌, All, IfErr, IfOk, OnOk, length, slice_index_or};
ghost use Rattle.bench.specs.Disk.{Looked, StillLeaves};
ghost use Rattle.bench.specs.Meter.{CostsOn, IsAttached, SameNames};
ghost use Rattle.bench.specs.declared.Dev.{Dev};
ghost use Rattle.block_map.specs.Maps.{IsMap, range_span};
ghost use Rattle.block_map.specs.declared.maps.Range.{Range};
ghost use Rattle.region_pool.specs.Buffers.{free_of};
ghost use Rattle.region_pool.specs.Uses.{IsGivenBack};
ghost use Rattle.verifier.specs.Checks.{HasOwnDigest, IsVerifyFault, IsDigestIn, IsDigestOf, IsFirstDifference, IsRangeFault, IsVerified, TellsSize, digests_among, mapped_bytes};

use crate::VerifyFault;
use crate::digests::digest_of;
use bench::{Bench, Dev};
use block_map::BlockMap;
use region_pool::Pool;

/// Compares the target with the digests of a map, range after range, and gives the number of ranges that have one.
/// Ranges without a digest aren't read. Takes no memory. The buffer is given back whatever is answered, and
/// holds any bytes then.
pub fn verify<B: Bench>(bench: &mut B, map: &BlockMap, pool: &mut Pool) -> Result<u64, VerifyFault>
    requires attached { IsAttached (B.meter bench.old) Dev.Target }
    requires map { IsMap map.now }
    requires free { 0 < free_of pool.old }
    ensures counted { IfOk result (λ count. count ≡ digests_among map.now.ranges) }
    ensures verified { B.told → OnOk result (IsVerified map.now ((B.disk bench.old).reads Dev.Target)) }
    ensures too_small { B.told → TellsSize map.now (length ((B.disk bench.old).reads Dev.Target)) result }
    ensures differs { B.told → IfErr result (IsFirstDifference map.now ((B.disk bench.old).reads Dev.Target)) }
    ensures cause { IfErr result (IsVerifyFault map.now (B.meter bench.old) (B.meter bench.new)) }
    ensures looked { Looked (B.disk bench.old) (B.disk bench.new) }
    ensures stays { (each : Dev) → StillLeaves each (B.disk bench.old) (B.disk bench.new) }
    ensures bill { CostsOn Dev.Target (1024 + 64 * length map.now.ranges + mapped_bytes map.now / 512) (B.meter bench.old) (B.meter bench.new) }
    ensures same_names { SameNames (B.meter bench.old) (B.meter bench.new) }
    ensures given_back { IsGivenBack pool.old pool.new }
{
    let Some(lease) = pool.lease() else {
        unreachable!()
    };
    let answer = verify_through(bench, map, pool.bytes_mut(&lease));
    pool.give(lease);
    answer
}

/// The same, where the target is read into this buffer.
fn verify_through<B: Bench>(
    bench: &mut B,
    map: &BlockMap,
    buf: &mut [u8],
) -> Result<u64, VerifyFault>
    requires attached { IsAttached (B.meter bench.old) Dev.Target }
    requires map { IsMap map.now }
    requires room { 16384 ≤ length buf.old }
    ensures counted { IfOk result (λ count. count ≡ digests_among map.now.ranges) }
    ensures verified { B.told → OnOk result (IsVerified map.now ((B.disk bench.old).reads Dev.Target)) }
    ensures too_small { B.told → TellsSize map.now (length ((B.disk bench.old).reads Dev.Target)) result }
    ensures differs { B.told → IfErr result (IsFirstDifference map.now ((B.disk bench.old).reads Dev.Target)) }
    ensures cause { IfErr result (IsVerifyFault map.now (B.meter bench.old) (B.meter bench.new)) }
    ensures looked { Looked (B.disk bench.old) (B.disk bench.new) }
    ensures stays { (each : Dev) → StillLeaves each (B.disk bench.old) (B.disk bench.new) }
    ensures bill { CostsOn Dev.Target (1024 + 64 * length map.now.ranges + mapped_bytes map.now / 512) (B.meter bench.old) (B.meter bench.new) }
    ensures same_names { SameNames (B.meter bench.old) (B.meter bench.new) }
{
    let has = bench.length(Dev::Target)?;
    if has < map.size {
        return Err(VerifyFault::TargetTooSmall {
            has,
            needs: map.size,
        });
    }
    let count = check_ranges(bench, map, buf)?;
    Ok(count)
}

/// How many ranges have a digest, where each of them has it on a target that is long enough.
fn check_ranges<B: Bench>(bench: &mut B, map: &BlockMap, buf: &mut [u8]) -> Result<u64, VerifyFault>
    requires attached { IsAttached (B.meter bench.old) Dev.Target }
    requires map { IsMap map.now }
    requires room { 16384 ≤ length buf.old }
    requires inside { B.told → map.now.size ≤ length ((B.disk bench.old).reads Dev.Target) }
    ensures counted { IfOk result (λ count. count ≡ digests_among map.now.ranges) }
    ensures each { B.told → OnOk result (All (HasOwnDigest map.now ((B.disk bench.old).reads Dev.Target)) map.now.ranges) }
    ensures long { B.told → TellsSize map.now (length ((B.disk bench.old).reads Dev.Target)) result }
    ensures differs { B.told → IfErr result (IsFirstDifference map.now ((B.disk bench.old).reads Dev.Target)) }
    ensures cause { IfErr result (IsVerifyFault map.now (B.meter bench.old) (B.meter bench.new)) }
    ensures looked { Looked (B.disk bench.old) (B.disk bench.new) }
    ensures stays { (each : Dev) → StillLeaves each (B.disk bench.old) (B.disk bench.new) }
    ensures bill { CostsOn Dev.Target (32 * length map.now.ranges + mapped_bytes map.now / 512) (B.meter bench.old) (B.meter bench.new) }
    ensures same_names { SameNames (B.meter bench.old) (B.meter bench.new) }
{
    let mut checked = 0;
    for (k, range) in map.ranges.as_slice().iter().enumerate() {
        let Some(want) = range.digest else {
            continue;
        };
        check_range(bench, map, k, want, buf)?;
        checked += 1;
    }
    Ok(checked)
}

/// Whether range `k` has on the target the digest that the map has of it.
fn check_range<B: Bench>(
    bench: &mut B,
    map: &BlockMap,
    k: usize,
    want: [u8; 32],
    buf: &mut [u8],
) -> Result<(), VerifyFault>
    requires attached { IsAttached (B.meter bench.old) Dev.Target }
    requires map { IsMap map.now }
    requires stated { IsDigestOf map.now k want }
    requires room { 16384 ≤ length buf.old }
    requires inside { B.told → map.now.size ≤ length ((B.disk bench.old).reads Dev.Target) }
    ensures same { B.told → OnOk result (IsDigestIn map.now ((B.disk bench.old).reads Dev.Target) k want) }
    ensures cause { IfErr result (IsRangeFault B.told map.now ((B.disk bench.old).reads Dev.Target) k want (B.meter bench.old) (B.meter bench.new)) }
    ensures looked { Looked (B.disk bench.old) (B.disk bench.new) }
    ensures stays { (each : Dev) → StillLeaves each (B.disk bench.old) (B.disk bench.new) }
    ensures bill { (d : Range) → CostsOn Dev.Target (32 + (range_span map.now (slice_index_or map.now.ranges k d)).len / 512) (B.meter bench.old) (B.meter bench.new) }
    ensures same_names { SameNames (B.meter bench.old) (B.meter bench.new) }
{
    let got = digest_of(bench, map.range_bytes(k), buf)?;
    if got != want {
        let range = k as u64;
        return Err(VerifyFault::TargetDiffers { range, want, got });
    }
    Ok(())
}
