ghost use Rattle.std.specs.Prelude.{◌≡◌, ℕ, ◌+◌, ◌^◌, ◌≤◌, ◌↔◌, IsTrue, IfOk};
ghost use Rattle.placement_claims.specs.Held.{IsHeld, in_place, is_late};
ghost use Rattle.placement_rules.specs.Claims.{in_run, meets, occupies};
ghost use Rattle.placement_rules.specs.Faults.{begins_below, clashes, has_logical};
ghost use Rattle.placement_rules.specs.Places.{end_of};
ghost use Rattle.span_cover.specs.Cover.{covers};

use crate::pieces::{add_record, left, share};
use base_fields::{List, NoMemory, Span};
use conf_values::Hole;
use placement_rules::{Place, Terms};
use span_cover::Cover;
use std::alloc::Global;
use std::marker::Model;

/// A partition in its place, with the set of the offsets that it occupies. Contracts see it as its terms, its holes and
/// its place.
#[derive(Debug, Drop)]
pub struct Claim {
    terms: Terms,
    holes: List<Hole>,
    place: Place,
    cover: Cover,
}

impl Model for Claim {
    ghost use Rattle.placement_claims.specs.Held.{IsClaim, in_place};
    ghost use Rattle.placement_rules.specs.Places.{Stood};

    ghost Value = { Stood };

    ghost view = { λ c. in_place c.terms c.holes c.place };

    ghost invariant = { λ c. IsClaim (in_place c.terms c.holes c.place) c.cover };
}

impl Claim {
    /// The claim of a partition that ends within 2^43 bytes and whose record, where it has one, stands in front of it.
    pub fn new(
        alloc: Global,
        terms: Terms,
        holes: List<Hole>,
        place: Place,
    ) -> Result<Claim, NoMemory>
        requires { IsHeld (in_place terms holes place) }
        ensures { IfOk result (λ claim. claim ≡ in_place terms holes place) }
    {
        let mut cover = left(alloc, &place, holes.as_slice())?;
        add_record(&mut cover, place.head)?;
        Ok(Claim {
            terms,
            holes,
            place,
            cover,
        })
    }

    pub fn terms(&self) -> &Terms
        ensures { result.now ≡ self.now.terms }
    {
        &self.terms
    }

    pub fn place(&self) -> &Place
        ensures { result.now ≡ self.now.place }
    {
        &self.place
    }

    pub fn holes(&self) -> &[Hole]
        ensures { result.now ≡ self.now.holes }
    {
        self.holes.as_slice()
    }

    /// The set of the offsets that it occupies.
    pub fn cover(&self) -> &Cover
        ensures { (o : ℕ) → covers result.now o ≡ occupies self.now o }
    {
        &self.cover
    }

    /// The offset behind its last byte.
    pub fn end(&self) -> u64
        ensures exact { result ≡ end_of self.now }
        ensures held { IsHeld self.now }
    {
        self.place.at + self.place.size
    }

    /// Whether it occupies one of so many bytes from a place on. Takes no memory.
    pub fn meets_run(&self, at: u64, len: u64) -> bool
        requires { at + len ≤ 2 ^ 44 }
        ensures { result ≡ meets self.now (in_run at len) }
    {
        self.cover.meets(Span { at, len })
    }

    /// Whether it occupies an offset that another one occupies. Takes no memory.
    pub fn meets(&self, other: &Claim) -> bool
        ensures { result ≡ meets self.now (occupies other.now) }
    {
        share(&self.cover, &other.cover)
    }

    /// Whether it occupies an offset of a set. Takes no memory.
    pub fn shares(&self, taken: &Cover) -> bool
        ensures { IsTrue result ↔ ((o : ℕ) × IsTrue (occupies self.now o) × IsTrue (covers taken.now o)) }
    {
        share(&self.cover, taken)
    }

    /// Whether it is logical and its record begins below the end of the last logical one.
    pub fn is_late(&self, last_end: Option<u64>) -> bool
        ensures { result ≡ is_late self.now last_end }
    {
        match (self.place.head, last_end) {
            (Some(head), Some(end)) => self.terms.logical && head < end,
            _ => false,
        }
    }

    /// Whether it meets an earlier one, or is the logical one behind that and begins below its end. `between` are those
    /// that are listed between them.
    pub fn clashes(&self, earlier: &Claim, between: &[Claim]) -> bool
        ensures { result ≡ clashes self.now earlier.now between.now }
    {
        self.meets(earlier)
            || (self.terms.logical
                && earlier.terms.logical
                && !has_logical(between)
                && self.begins_below(earlier.end()))
    }

    fn begins_below(&self, end: u64) -> bool
        ensures { result ≡ begins_below self.now.place.head end }
    {
        self.place.head.is_some_and(|head| head < end)
    }
}

/// Whether one of these is logical.
fn has_logical(claims: &[Claim]) -> bool
    ensures { result ≡ has_logical claims.now }
{
    for claim in claims {
        if claim.terms().logical {
            return true;
        }
    }
    false
}
