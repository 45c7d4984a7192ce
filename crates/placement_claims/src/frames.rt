ghost use Rattle.std.specs.Prelude.{◌≡◌};
ghost use Rattle.placement_claims.specs.Held.{IsFramed, met_front};
ghost use Rattle.placement_rules.specs.Faults.{met};

use crate::claim::Claim;
use crate::earlier::Earlier;
use placement_rules::{Frame, Meeting, has_guid, has_table};

/// Where a master boot record has its disk signature, and the bytes from there to its end.
const RECORD_AT: u64 = 440;

const RECORD_LEN: u64 = 72;

/// The bytes of the 128 entries of a GUID partition table.
const ENTRIES_LEN: u64 = 16384;

/// What a partition meets that it may not: a table in front, or an earlier partition. Takes no memory.
pub fn met(frame: &Frame, earlier: &Earlier, claim: &Claim) -> Option<Meeting>
    requires { IsFramed frame.now }
    ensures { result ≡ met frame.now earlier.now claim.now }
{
    match met_front(frame, claim) {
        Some(front) => Some(front),
        None => earlier.first_clash(claim).map(Meeting::Earlier),
    }
}

/// What a partition meets of the tables in front.
fn met_front(frame: &Frame, claim: &Claim) -> Option<Meeting>
    requires { IsFramed frame.now }
    ensures { result ≡ met_front frame.now claim.now }
{
    let guid = has_guid(frame.table);
    let sector = u64::from(frame.sector);
    if has_table(frame.table) && claim.meets_run(RECORD_AT, RECORD_LEN) {
        return Some(Meeting::Mbr);
    }
    if guid && claim.meets_run(sector, sector) {
        return Some(Meeting::Header);
    }
    if guid && claim.meets_run(frame.entries_at, ENTRIES_LEN) {
        return Some(Meeting::Entries);
    }
    if guid && claim.terms().tabled && claim.place().at < frame.front {
        return Some(Meeting::Front);
    }
    None
}
