//! The offsets of a partition, piece by piece.
ghost use Rattle.std.specs.Prelude.{◌≡◌, ℕ, ◌+◌, ◌-◌, ◌^◌, ◌≤◌, ◌↔◌, ◌||◌, ◌&&◌, IsTrue, IfOk, IfSome, OnOk, length};
ghost use Rattle.placement_claims.specs.Held.{Shares, is_left};
ghost use Rattle.placement_rules.specs.Claims.{in_hole, in_record, in_run};
ghost use Rattle.span_cover.specs.Cover.{covers, has};

use base_fields::{NoMemory, Span};
use conf_values::Hole;
use placement_rules::Place;
use span_cover::Cover;
use std::alloc::Global;

/// The bytes of a boot record.
const RECORD_LEN: u64 = 512;

/// What a partition claims: from its place to its end, without its holes.
pub fn left(alloc: Global, place: &Place, holes: &[Hole]) -> Result<Cover, NoMemory>
    requires { place.now.at + place.now.size ≤ 2 ^ 43 }
    ensures exact { IfOk result (λ cover. (o : ℕ) → covers cover o ≡ is_left place.now holes.now o) }
    ensures few { IfOk result (λ cover. length cover ≤ length holes.now + 1) }
{
    let mut cover = Cover::new(alloc);
    cover.add(Span {
        at: place.at,
        len: place.size,
    })?;
    for hole in holes {
        cover.take_out(clipped(place, *hole))?;
    }
    Ok(cover)
}

/// What of a hole lies in its partition, in the image.
fn clipped(place: &Place, hole: Hole) -> Span
    requires { place.now.at + place.now.size ≤ 2 ^ 43 }
    ensures exact { (o : ℕ) → has result o ≡ (in_run place.now.at place.now.size o && in_hole (o - place.now.at) hole) }
    ensures bounded { result.at + result.len ≤ 2 ^ 44 }
{
    let from = hole.from.min(place.size);
    let to = hole.to.min(place.size);
    Span {
        at: place.at + from,
        len: to.saturating_sub(from),
    }
}

/// Adds the sector of a boot record, where there is one.
pub fn add_record(cover: &mut Cover, head: Option<u64>) -> Result<(), NoMemory>
    requires { IfSome head (λ head. head ≤ 2 ^ 43) }
    ensures ok { OnOk result ((o : ℕ) → covers cover.new o ≡ (covers cover.old o || in_record head o)) }
    ensures few { length cover.new ≤ length cover.old + 1 }
{
    match head {
        None => Ok(()),
        Some(head) => {
            cover.add(Span {
                at: head,
                len: RECORD_LEN,
            })?;
            Ok(())
        }
    }
}

/// Adds all offsets of another set.
pub fn add_all(cover: &mut Cover, more: &Cover) -> Result<(), NoMemory>
    ensures ok { OnOk result ((o : ℕ) → covers cover.new o ≡ (covers cover.old o || covers more.now o)) }
{
    let spans = more.spans();
    for span in spans {
        cover.add(*span)?;
    }
    Ok(())
}

/// Whether two sets share an offset. Takes no memory.
pub fn share(one: &Cover, other: &Cover) -> bool
    ensures { IsTrue result ↔ Shares one.now other.now }
{
    let spans = one.spans();
    for span in spans {
        if other.meets(*span) {
            return true;
        }
    }
    false
}
