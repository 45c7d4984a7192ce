//! The entries of master boot records, in sectors of 512 bytes.
ghost use Rattle.std.specs.Prelude.{◌≡◌, ◌/◌, ◌^◌, ◌<◌};
ghost use Rattle.conf_keys.specs.Within.{IsPartitionWithin};
ghost use Rattle.table_entries.specs.Entries.{logical_spec_of, mbr_entry_of, mbr_kind};

use conf_keys::PartitionSection;
use extended_chain::LogicalSpec;
use mbr_table::MbrEntry;

/// The type of a Linux partition, which stands where no type is given.
const LINUX: u32 = 0x83;

const SECTOR: u64 = 512;

/// The type of a partition.
#[tactic(auto, using(crate::proofs::Fits::mbr_kind_fits))]
fn kind(part: &PartitionSection) -> u8
    requires { IsPartitionWithin part.now }
    ensures { result ≡ mbr_kind part.now }
{
    part.partition_type.unwrap_or(LINUX) as u8
}

/// The entry of a partition that begins at the byte `at` and has `size` bytes.
pub fn mbr_entry(part: &PartitionSection, at: u64, size: u64) -> MbrEntry
    requires within { IsPartitionWithin part.now }
    requires first { at / 512 < 2 ^ 32 }
    requires count { size / 512 < 2 ^ 32 }
    ensures { result ≡ mbr_entry_of part.now at size }
{
    MbrEntry {
        active: part.bootable,
        kind: kind(part),
        first: (at / SECTOR) as u32,
        count: (size / SECTOR) as u32,
    }
}

/// The logical partition that begins at the byte `at` and has `size` bytes, with its boot record at
/// the byte `head`.
pub fn logical_spec(part: &PartitionSection, head: u64, at: u64, size: u64) -> LogicalSpec
    requires within { IsPartitionWithin part.now }
    requires head { head / 512 < 2 ^ 32 }
    requires first { at / 512 < 2 ^ 32 }
    requires count { size / 512 < 2 ^ 32 }
    ensures { result ≡ logical_spec_of part.now head at size }
{
    LogicalSpec {
        active: part.bootable,
        kind: kind(part),
        head: (head / SECTOR) as u32,
        first: (at / SECTOR) as u32,
        count: (size / SECTOR) as u32,
    }
}
