//! Where a partition stands.
ghost use Rattle.std.specs.Prelude.{◌≡◌, ◌+◌, ◌<◌, ◌≤◌, ◌^◌, IsTrue};
ghost use Rattle.placement_rules.specs.Bounds.{IsFrame, IsRoundable, IsTerms};
ghost use Rattle.placement_rules.specs.Frames.{backup_len};
ghost use Rattle.placement_rules.specs.Places.{at_from, free_from, least_multiple, room_in, room_of, size_of, standing};

use crate::frames::ENTRIES_LEN;
use crate::{Frame, Place, Terms};
use base_fields::round_up;

/// The bytes of the backup at the end of an image: its entries and its header.
pub fn backup_len(frame: &Frame) -> u64
    ensures { result ≡ backup_len frame.now }
{
    if frame.backup {
        u64::from(frame.sector) + ENTRIES_LEN
    } else {
        0
    }
}

/// The least multiple of `to` that isn't below `n`.
#[tactic(auto, using(base_fields::proofs::Rounding::round_fits, crate::proofs::Multiples::rounded))]
pub fn least_multiple(to: u64, n: u64) -> u64
    requires to { 1 ≤ to }
    requires fits { n + to ≤ 2 ^ 64 }
    ensures least { result ≡ least_multiple to n }
    ensures near { result < n + to }
{
    round_up(n, to)
}

/// Where a partition stands that has no offset of its own.
fn free_from(highest: u64, terms: &Terms) -> u64
    requires terms { IsTerms terms.now }
    requires highest { highest ≤ 2 ^ 44 }
    ensures exact { result ≡ free_from highest terms.now }
    ensures near { result ≤ 2 ^ 45 }
{
    let record = least_multiple(terms.align, highest);
    record + if terms.logical { terms.align } else { 0 }
}

fn at_from(highest: u64, terms: &Terms) -> u64
    requires terms { IsTerms terms.now }
    requires highest { highest ≤ 2 ^ 44 }
    ensures exact { result ≡ at_from highest terms.now }
    ensures near { result ≤ 2 ^ 45 }
{
    match terms.offset {
        Some(offset) => offset,
        None => free_from(highest, terms),
    }
}

/// The room of a partition that grows.
fn room_of(frame: &Frame, terms: &Terms, at: u64) -> u64
    requires frame { IsFrame frame.now }
    requires terms { IsTerms terms.now }
    ensures exact { result ≡ room_of frame.now terms.now at }
    ensures near { result ≤ 2 ^ 43 }
{
    match frame.size {
        Some(size) if terms.last => {
            let end = size.saturating_sub(backup_len(frame)) / terms.align * terms.align;
            end.saturating_sub(at)
        }
        _ => 0,
    }
}

fn size_of(frame: &Frame, terms: &Terms, at: u64) -> u64
    requires frame { IsFrame frame.now }
    requires terms { IsTerms terms.now }
    requires roundable { IsRoundable terms.now }
    ensures exact { result ≡ size_of frame.now terms.now at }
    ensures near { result ≤ 2 ^ 44 }
{
    if terms.autoresize {
        return room_of(frame, terms, at);
    }
    match terms.size {
        Some(size) => size,
        None => least_multiple(terms.align, terms.len),
    }
}

/// Where a partition stands, by the front end and the greatest end of those before it.
pub(crate) fn standing(frame: &Frame, terms: &Terms, highest: u64) -> Place
    requires frame { IsFrame frame.now }
    requires terms { IsTerms terms.now }
    requires highest { highest ≤ 2 ^ 44 }
    requires roundable { IsRoundable terms.now }
    ensures exact { result ≡ standing frame.now terms.now (at_from highest terms.now) }
    ensures near { result.at + result.size ≤ 2 ^ 46 }
{
    let at = at_from(highest, terms);
    Place {
        at,
        size: size_of(frame, terms, at),
        head: if terms.logical {
            Some(at.saturating_sub(terms.align))
        } else {
            None
        },
    }
}
