//! Where the extended partition reaches, and which primary partition meets it.
ghost use Rattle.std.specs.Prelude.{◌≡◌};
ghost use Rattle.placement.specs.Layouts.{is_primary};
ghost use Rattle.placement.specs.Said.{extended_start, in_extended, is_primary_in, logical_ends};
ghost use Rattle.placement_rules.specs.Places.{greatest};
ghost use Rattle.std.specs.List.{position};

use placement_claims::Claim;

/// The number of the first primary partition that meets the extended one.
pub fn in_extended(claims: &[Claim]) -> Option<usize>
    ensures { result ≡ in_extended claims.now (extended_start claims.now) }
{
    match extended_start(claims) {
        Some(start) => first_primary_in(claims, start, extended_end(claims)),
        None => None,
    }
}

/// Where the record of the first logical partition stands.
fn extended_start(claims: &[Claim]) -> Option<u64>
    ensures { result ≡ extended_start claims.now }
{
    for claim in claims {
        if let Some(head) = claim.place().head {
            return Some(head);
        }
    }
    None
}

/// The greatest end of a logical partition.
fn extended_end(claims: &[Claim]) -> u64
    ensures { result ≡ greatest (logical_ends claims.now) }
{
    let mut end = 0;
    for claim in claims {
        if claim.terms().logical {
            end = claim.end().max(end);
        }
    }
    end
}

/// The number of the first primary partition that has bytes between two offsets.
fn first_primary_in(claims: &[Claim], from: u64, to: u64) -> Option<usize>
    ensures { result ≡ position (is_primary_in from to) claims.now }
{
    claims
        .iter()
        .position(|claim| is_primary_in(claim, from, to))
}

/// Whether a primary partition has bytes between two offsets.
fn is_primary_in(claim: &Claim, from: u64, to: u64) -> bool
    ensures { result ≡ is_primary_in from to claim.now }
{
    let at = claim.place().at;
    is_primary(claim) && at < to && from < claim.end() && at < claim.end() && from < to
}

/// Whether the table has a partition and it isn't logical.
pub fn is_primary(claim: &Claim) -> bool
    ensures { result ≡ is_primary claim.now }
{
    claim.terms().tabled && !claim.terms().logical
}
