//! Where each partition of a flash image stands.
ghost use Rattle.std.specs.Prelude.{◌≡◌, ◌^◌, ◌≤◌, ◌∷◌, ◌++◌, [], All, IfErr, IfOk, IfSome, length};
ghost use Rattle.conf_keys.specs.Within.{IsPartitionWithin, IsSizeFrom};
ghost use Rattle.flash_geometry.specs.Faults.{Refuses, part_fault, partition_fault};
ghost use Rattle.flash_geometry.specs.Places.{IsGeometry, or_block, place_of, places};
ghost use Rattle.placement_rules.specs.Places.{least_multiple};

use crate::Geometry;
use crate::faults::{number_fault, place_fault};
use crate::taken::Taken;
use base_fields::{Span, round_up};
use conf_keys::PartitionSection;
use placement_rules::PlaceFault;
use std::alloc::Global;

/// The least multiple of a number that isn't below `n`.
#[tactic(auto, using(base_fields::proofs::Rounding::round_fits))]
fn least_multiple(to: u64, n: u64) -> u64
    requires { (1 ≤ to) × (to ≤ 2 ^ 43) × (n ≤ 2 ^ 43) }
    ensures exact { result ≡ least_multiple to n }
    ensures bounded { result ≤ 2 ^ 44 }
{
    round_up(n, to)
}

// The number that is given, else the first boundary of erase blocks that isn't below `n`.
fn or_block(geometry: &Geometry, given: Option<u64>, n: u64) -> u64
    requires geometry { IsGeometry geometry.now }
    requires given { IfSome given (IsSizeFrom 0) }
    requires n { n ≤ 2 ^ 43 }
    ensures exact { result ≡ or_block geometry.now given n }
    ensures bounded { result ≤ 2 ^ 44 }
{
    match given {
        Some(given) => given,
        None => least_multiple(geometry.pebsize, n),
    }
}

// The bytes of a partition behind those that have taken theirs.
fn place_of(geometry: &Geometry, taken: &Taken, part: &PartitionSection, len: u64) -> Span
    requires geometry { IsGeometry geometry.now }
    requires part { IsPartitionWithin part.now }
    requires len { len ≤ 2 ^ 43 }
    ensures exact { result ≡ place_of geometry.now taken.now part.now len }
    ensures bounded { (result.at ≤ 2 ^ 44) × (result.len ≤ 2 ^ 44) }
{
    Span {
        at: or_block(geometry, part.offset, taken.last_end()),
        len: or_block(geometry, part.size, len),
    }
}

// The partition's bytes are taken, too.
fn take_place(
    alloc: Global,
    geometry: &Geometry,
    parts: &[PartitionSection],
    taken: Taken,
    part: &PartitionSection,
    len: u64,
) -> Result<Taken, PlaceFault>
    requires geometry { IsGeometry geometry.now }
    requires known { length taken ≤ length parts.now }
    requires part { IsPartitionWithin part.now }
    ensures placed { IfOk result (λ more. (part_fault geometry.now parts.now taken part.now len ≡ None)
        × (more ≡ taken ++ place_of geometry.now taken part.now len ∷ [])) }
    ensures refused { IfErr result (Refuses (part_fault geometry.now parts.now taken part.now len)) }
{
    number_fault(alloc, geometry, part, len)?;
    let span = place_of(geometry, &taken, part, len);
    place_fault(alloc, geometry, parts, &taken, &part.name, len, span)?;
    Ok(taken.with(span)?)
}

/// What the partitions stand on, in their order, by the lengths of their files; or the first refusal.
pub fn places(
    alloc: Global,
    geometry: &Geometry,
    parts: &[PartitionSection],
    lens: &[u64],
) -> Result<Taken, PlaceFault>
    requires geometry { IsGeometry geometry.now }
    requires parts { All IsPartitionWithin parts.now }
    requires lens { length lens.now ≡ length parts.now }
    ensures placed { IfOk result (λ taken. (partition_fault geometry.now parts.now lens.now ≡ None)
        × (taken ≡ places geometry.now parts.now lens.now)) }
    ensures refused { IfErr result (Refuses (partition_fault geometry.now parts.now lens.now)) }
    ensures count { IfOk result (λ taken. length taken ≡ length parts.now) }
{
    let mut taken = Taken::new(alloc);
    for (k, part) in parts.iter().enumerate() {
        taken = take_place(alloc, geometry, parts, taken, part, lens[k])?;
    }
    Ok(taken)
}
