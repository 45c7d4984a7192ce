//! The map of an image whose offsets that count are known: its ranges, and then the digest of each.
ghost use Rattle.std.specs.Prelude.{◌≡◌, ℕ, ◌+◌, ◌<◌, ◌≤◌, ◌^◌, IfErr, IfOk, IsTrue, List, OnOk, length};
ghost use Rattle.base_fields.specs.Numbers.{IsPowerBetween};
ghost use Rattle.base_fields.specs.declared.spans.Span.{Span as span_of};
ghost use Rattle.block_map.specs.Maps.{IsMap, IsMapOf, IsMapTo, max_ranges};
ghost use Rattle.outside.specs.Counts.{NoneFell};
ghost use Rattle.outside.specs.Files.{IsThere, bytes_of};
ghost use Rattle.region_pool.specs.Buffers.{free_of};
ghost use Rattle.region_pool.specs.Uses.{IsGivenBack};
ghost use Rattle.map_job.specs.Faults.{IsOf, IsShown, is_counted};

use crate::MappingFault;
use crate::measuring::Measured;
use block_map::{BlockMap, digests_make_the_map};
use outside::Files;
use range_digest::digest_of;
use region_pool::Pool;
use std::alloc::Global;

/// The map of the image of that number by its file of that name: the runs of blocks that have an offset that counts, each
/// with the digest of its bytes. Each byte of these is read once, through one leased buffer, which is given back. No file is
/// changed. Takes the memory of the map.
pub fn map_measured<F: Files>(
    alloc: Global,
    files: &mut F,
    number: u32,
    name: &str,
    measured: &Measured,
    block: u32,
    pool: &mut Pool,
) -> Result<BlockMap, MappingFault>
    requires free { 0 < free_of pool.old }
    requires block { IsPowerBetween 512 65536 block }
    requires small { measured.now.size ≤ 2 ^ 43 }
    requires few { length measured.now.cover ≤ max_ranges }
    requires there { F.told → IsThere (F.file files.old) name.now (length (bytes_of (F.file files.old) name.now) ≡ measured.now.size) }
    ensures made { F.told → IfOk result (IsMapOf measured.now.cover (bytes_of (F.file files.old) name.now) block) }
    ensures counted { F.told → IfErr result (λ fault. IsTrue (is_counted fault)) }
    ensures map { IfOk result IsMap }
    ensures cause { IfErr result (IsShown (F.counts files.old) (F.counts files.new)) }
    ensures image { IfErr result (IsOf number) }
    ensures none_fell { NoneFell (F.counts files.old) (F.counts files.new) }
    ensures same_files { F.file files.new ≡ F.file files.old }
    ensures given_back { IsGivenBack pool.old pool.new }
{
    digests_make_the_map();
    let mut map = BlockMap::from_cover(alloc, &measured.cover, measured.size, block)?;
    digest_ranges(files, number, name, &mut map, pool)?;
    Ok(map)
}

// Sets the digest of each range, by the file's bytes.
fn digest_ranges<F: Files>(
    files: &mut F,
    number: u32,
    name: &str,
    map: &mut BlockMap,
    pool: &mut Pool,
) -> Result<(), MappingFault>
    requires free { 0 < free_of pool.old }
    requires map { IsMap map.old }
    requires there { F.told → IsThere (F.file files.old) name.now (length (bytes_of (F.file files.old) name.now) ≡ map.old.size) }
    ensures all { F.told → (spans : List span_of) (block : ℕ) → IsMapTo spans (bytes_of (F.file files.old) name.now) block 0 map.old
        → OnOk result (IsMapTo spans (bytes_of (F.file files.old) name.now) block (length map.new.ranges) map.new) }
    ensures counted { F.told → IfErr result (λ fault. IsTrue (is_counted fault)) }
    ensures map { IsMap map.new }
    ensures cause { IfErr result (IsShown (F.counts files.old) (F.counts files.new)) }
    ensures image { IfErr result (IsOf number) }
    ensures none_fell { NoneFell (F.counts files.old) (F.counts files.new) }
    ensures same_files { F.file files.new ≡ F.file files.old }
    ensures given_back { IsGivenBack pool.old pool.new }
{
    for k in 0..map.ranges.len() {
        digest_range(files, number, name, map, k, pool)?;
    }
    Ok(())
}

// Sets the digest of range `k`.
fn digest_range<F: Files>(
    files: &mut F,
    number: u32,
    name: &str,
    map: &mut BlockMap,
    k: usize,
    pool: &mut Pool,
) -> Result<(), MappingFault>
    requires free { 0 < free_of pool.old }
    requires map { IsMap map.old }
    requires range { k < length map.old.ranges }
    requires there { F.told → IsThere (F.file files.old) name.now (length (bytes_of (F.file files.old) name.now) ≡ map.old.size) }
    ensures more { F.told → (spans : List span_of) (block : ℕ) → IsMapTo spans (bytes_of (F.file files.old) name.now) block k map.old
        → OnOk result (IsMapTo spans (bytes_of (F.file files.old) name.now) block (k + 1) map.new) }
    ensures counted { F.told → IfErr result (λ fault. IsTrue (is_counted fault)) }
    ensures map { IsMap map.new }
    ensures size { map.new.size ≡ map.old.size }
    ensures many { length map.new.ranges ≡ length map.old.ranges }
    ensures cause { IfErr result (IsShown (F.counts files.old) (F.counts files.new)) }
    ensures image { IfErr result (IsOf number) }
    ensures none_fell { NoneFell (F.counts files.old) (F.counts files.new) }
    ensures same_files { F.file files.new ≡ F.file files.old }
    ensures given_back { IsGivenBack pool.old pool.new }
{
    digests_make_the_map();
    let span = map.range_bytes(k);
    match digest_of(files, name, span, pool) {
        Ok(digest) => {
            map.set_digest(k, digest);
            Ok(())
        }
        Err(fault) => Err(MappingFault::Digest {
            image: number,
            fault,
        }),
    }
}
