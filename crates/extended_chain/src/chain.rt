ghost use Rattle.std.specs.Prelude.{◌≡◌, ℕ, ◌+◌, ◌^◌, ◌<◌, ◌≤◌, length, slice_get, slice_index, Some};
ghost use Rattle.base_fields.specs.Fields.{byte_of, joined};
ghost use Rattle.extended_chain.specs.Chain.{Ascends, link_to, own_entry, record_fields, start_of};

use base_fields::put_bytes;
use mbr_table::{MARK, MbrEntry, put_entry};

/// The type of an entry that leads to the next record.
const EXTENDED: u8 = 0x05;

/// A logical partition, in sectors of the disk: `head` is the sector of its boot record.
#[derive(Clone, Copy, Debug, PartialEq, Eq)]
pub struct LogicalSpec {
    pub active: bool,
    pub kind: u8,
    pub head: u32,
    pub first: u32,
    pub count: u32,
}

/// The entry of a partition in its own record.
fn first_entry(spec: &LogicalSpec) -> MbrEntry
    requires { spec.now.head ≤ spec.now.first }
    ensures { result ≡ own_entry spec.now }
{
    MbrEntry {
        active: spec.active,
        kind: spec.kind,
        first: spec.first - spec.head,
        count: spec.count,
    }
}

/// The entry that leads to the record of this partition, in an extended partition that begins in
/// the sector `start`.
fn link_entry(start: u32, next: &LogicalSpec) -> MbrEntry
    requires start { start ≤ next.now.head }
    requires end { next.now.head ≤ next.now.first + next.now.count }
    requires fits { next.now.first + next.now.count < next.now.head + 2 ^ 32 }
    ensures { result ≡ link_to start (Some next.now) }
{
    let end = u64::from(next.first) + u64::from(next.count);
    MbrEntry {
        active: false,
        kind: EXTENDED,
        first: next.head - start,
        count: (end - u64::from(next.head)) as u32,
    }
}

/// The second entry of the record number `k`, which is empty in the last record.
#[tactic(auto, using(std::proofs::lemmas::Option::gets))]
fn second_entry(specs: &[LogicalSpec], k: usize) -> MbrEntry
    requires known { k < length specs.now }
    requires ascends { Ascends specs.now }
    ensures { result ≡ link_to (start_of specs.now) (slice_get specs.now (k + 1)) }
{
    match specs.get(k + 1) {
        Some(next) => link_entry(specs[0].head, next),
        None => MbrEntry::EMPTY,
    }
}

/// The bytes at 446 to 511 of the record number `k`.
fn entries_bytes(specs: &[LogicalSpec], k: usize) -> [u8; 66]
    requires known { k < length specs.now }
    requires ascends { Ascends specs.now }
    ensures { result ≡ joined (record_fields specs.now k) }
{
    let mut bytes = [0; 66];
    put_entry(&mut bytes, 0, specs[k].head, &first_entry(&specs[k]));
    put_entry(&mut bytes, 16, specs[0].head, &second_entry(specs, k));
    bytes[64..].copy_from_slice(&MARK);
    bytes
}

/// The boot record of the logical partition number `k`, counted from 0: the 512 bytes of its sector.
pub fn record_bytes(specs: &[LogicalSpec], k: usize) -> [u8; 512]
    requires known { k < length specs.now }
    requires ascends { Ascends specs.now }
    ensures { (o : ℕ) → o < 512 → slice_index result o ≡ byte_of (record_fields specs.now k) o }
{
    let mut bytes = [0; 512];
    put_bytes(&mut bytes, 446, &entries_bytes(specs, k));
    bytes
}
