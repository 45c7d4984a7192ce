ghost use Rattle.std.specs.Prelude.{◌≡◌, ◌^◌, ◌≤◌, ◌++◌, ◌∷◌, [], IfOk, map};
ghost use Rattle.base_fields.specs.Results.{provided};
ghost use Rattle.placement_rules.specs.Faults.{◌or◌, first_clash};
ghost use Rattle.placement_rules.specs.Places.{end_of, greatest};

use crate::claim::Claim;
use crate::pieces::add_all;
use base_fields::{List, NoMemory};
use span_cover::Cover;
use std::alloc::Global;
use std::marker::Model;

/// The partitions that are listed before one, and what they occupy together. Contracts see the list of them.
#[derive(Debug, Drop)]
pub struct Earlier {
    claims: List<Claim>,
    taken: Cover,
    last_end: Option<u64>,
    greatest_end: u64,
}

impl Model for Earlier {
    ghost use Rattle.std.specs.Prelude.{List as list_of};
    ghost use Rattle.placement_claims.specs.Held.{AreTaken};
    ghost use Rattle.placement_rules.specs.Places.{Stood};

    ghost Value = { list_of Stood };

    ghost view = { λ e. e.claims };

    ghost invariant = { λ e. AreTaken e.claims e.taken e.last_end e.greatest_end };
}

impl Earlier {
    /// None. Takes no memory.
    pub fn new(alloc: Global) -> Earlier
        ensures { result ≡ [] }
    {
        Earlier {
            claims: List::new(alloc),
            taken: Cover::new(alloc),
            last_end: None,
            greatest_end: 0,
        }
    }

    /// These and one behind them.
    pub fn with(self, claim: Claim) -> Result<Earlier, NoMemory>
        ensures { IfOk result (λ more. more ≡ self ++ claim ∷ []) }
    {
        let Earlier {
            mut claims,
            mut taken,
            last_end,
            greatest_end,
        } = self;
        add_all(&mut taken, claim.cover())?;
        let last_end = last_of(last_end, &claim);
        let greatest_end = greatest_end.max(claim.end());
        claims.push(claim)?;
        Ok(Earlier {
            claims,
            taken,
            last_end,
            greatest_end,
        })
    }

    /// In the order of the list.
    pub fn claims(&self) -> &[Claim]
        ensures { result.now ≡ self.now }
    {
        self.claims.as_slice()
    }

    /// The greatest of their ends, 0 where there are none.
    pub fn greatest_end(&self) -> u64
        ensures exact { result ≡ greatest (map end_of self.now) }
        ensures bounded { result ≤ 2 ^ 43 }
    {
        self.greatest_end
    }

    /// The number of the first with which a later one clashes. Takes no memory, and goes over them only
    /// where there is one.
    pub fn first_clash(&self, claim: &Claim) -> Option<usize>
        ensures { result ≡ first_clash claim.now self.now }
    {
        if claim.shares(&self.taken) || claim.is_late(self.last_end) {
            return first_of(self.claims.as_slice(), claim);
        }
        None
    }
}

/// The end of the last logical one, with one more.
fn last_of(last_end: Option<u64>, claim: &Claim) -> Option<u64>
    ensures { result ≡ (provided claim.now.terms.logical (end_of claim.now) or last_end) }
{
    if claim.terms().logical {
        Some(claim.end())
    } else {
        last_end
    }
}

/// The number of the first of these with which a later one clashes.
fn first_of(earlier: &[Claim], claim: &Claim) -> Option<usize>
    ensures { result ≡ first_clash claim.now earlier.now }
{
    for k in 0..earlier.len() {
        if claim.clashes(&earlier[k], &earlier[k + 1..]) {
            return Some(k);
        }
    }
    None
}
