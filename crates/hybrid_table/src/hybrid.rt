ghost use Rattle.std.specs.Prelude.{◌≡◌, ℕ, ◌+◌, ◌<◌, ◌≤◌, All, length, slice_index, slice_index_or};
ghost use Rattle.base_fields.specs.Fields.{byte_of};
ghost use Rattle.mbr_table.specs.Mbr.{HasLast, no_entry};
ghost use Rattle.hybrid_table.specs.Hybrid.{hybrid_fields};

use mbr_table::{MbrEntry, MbrSpec, mbr_bytes, protective_entry};

/// The entry number `k`, or an empty one where none is given.
fn given_entry(entries: &[MbrEntry], k: usize) -> MbrEntry
    ensures { result ≡ slice_index_or entries.now k no_entry }
{
    entries.get(k).copied().unwrap_or(MbrEntry::EMPTY)
}

/// The bytes at 440 to 511 of a hybrid image. `front` is the end of the front of the GUID
/// partition table in sectors, and the entries follow the protective one.
pub fn hybrid_bytes(signature: u32, front: u64, entries: &[MbrEntry]) -> [u8; 72]
    requires few { length entries.now ≤ 3 }
    requires front { 2 ≤ front }
    requires last { All (HasLast 0) entries.now }
    ensures { (o : ℕ) → o < 72 → slice_index result o ≡ byte_of (hybrid_fields signature front entries.now) (440 + o) }
{
    mbr_bytes(&MbrSpec {
        signature,
        entries: [
            protective_entry(front),
            given_entry(entries, 0),
            given_entry(entries, 1),
            given_entry(entries, 2),
        ],
    })
}
