ghost use Rattle.std.specs.Prelude.{◌≡◌, ◌+◌, ◌^◌, ◌<◌, ◌≤◌, length};
ghost use Rattle.extended_chain.specs.Chain.{start_of};
ghost use Rattle.extended_chain.specs.Extended.{extended_entry_of, greatest_end};

use crate::LogicalSpec;
use mbr_table::MbrEntry;

/// The type of the entry of an extended partition in the master boot record, whose sectors are
/// addressed by their number.
const EXTENDED: u8 = 0x0F;

/// The greatest end of these partitions, in sectors of the disk: the sector behind the last one.
fn end_of(specs: &[LogicalSpec]) -> u64
    ensures { result ≡ greatest_end specs.now }
{
    let mut end = 0;
    for spec in specs {
        end = (u64::from(spec.first) + u64::from(spec.count)).max(end);
    }
    end
}

/// The entry of the extended partition that has these logical partitions: it reaches from the
/// first record to the greatest end of a partition. It is never active.
pub fn extended_entry(specs: &[LogicalSpec]) -> MbrEntry
    requires some { 0 < length specs.now }
    requires end { start_of specs.now ≤ greatest_end specs.now }
    requires fits { greatest_end specs.now < start_of specs.now + 2 ^ 32 }
    ensures { result ≡ extended_entry_of specs.now }
{
    let start = specs[0].head;
    MbrEntry {
        active: false,
        kind: EXTENDED,
        first: start,
        count: (end_of(specs) - u64::from(start)) as u32,
    }
}
