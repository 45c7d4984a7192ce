//! Places of a command line: which lists of them are taken.
ghost use Rattle.std.specs.Prelude.{◌≡◌, ◌∷◌, IfOk, map};
ghost use Rattle.job_words.specs.Arguments.{all_differ, is_among, paired};
ghost use Rattle.job_words.specs.Jobs.{are_pairs, are_pieces};

use base_fields::{List, Name, NoMemory, Pair};
use std::alloc::Global;

const MOST_PLACES: usize = 32;

const MOST_PIECES: usize = 64;

/// Whether no two places are equal.
pub(crate) fn are_distinct(places: &[&str]) -> bool
    ensures { result ≡ all_differ (map (λ place. place.now) places.now) }
{
    match places.split_first() {
        Some((place, others)) => !has_place(others, place) && are_distinct(others),
        None => true,
    }
}

/// Whether one of the places is this text.
pub(crate) fn has_place(places: &[&str], text: &str) -> bool
    ensures { result ≡ is_among text.now (map (λ place. place.now) places.now) }
{
    for place in places {
        if *place == text {
            return true;
        }
    }
    false
}

/// Whether no two of these are equal: the first and the others.
pub(crate) fn are_distinct_with(first: &str, others: &[&str]) -> bool
    ensures { result ≡ all_differ (first.now ∷ map (λ place. place.now) others.now) }
{
    !has_place(others, first) && are_distinct(others)
}

/// Whether the places after the map are whole pairs of a target and its journal, at most 16 of
/// them, and no two places are equal.
pub(crate) fn are_gang(source: &str, block_map: &str, places: &[&str]) -> bool
    ensures { result ≡ are_pairs source.now block_map.now (map (λ place. place.now) places.now) }
{
    if places.len() % 2 != 0 || places.len() > MOST_PLACES {
        return false;
    }
    if block_map == source || has_place(places, source) {
        return false;
    }
    are_distinct_with(block_map, places)
}

/// Whether there are at most 64 pieces, and no two places are equal.
pub(crate) fn are_expandable(out: &str, pieces: &[&str]) -> bool
    ensures { result ≡ are_pieces out.now (map (λ place. place.now) pieces.now) }
{
    pieces.len() <= MOST_PIECES && are_distinct_with(out, pieces)
}

/// The places two by two, each a target and its journal.
pub(crate) fn pairs_of(alloc: Global, places: &[&str]) -> Result<List<Pair>, NoMemory>
    ensures { IfOk result (λ pairs. pairs ≡ paired (map (λ place. place.now) places.now)) }
{
    let mut pairs = List::new(alloc);
    let mut rest = places;
    while let [target, journal, others @ ..] = rest {
        pairs.push(Pair {
            name: Name::of(alloc, target)?,
            value: Name::of(alloc, journal)?,
        })?;
        rest = others;
    }
    Ok(pairs)
}

/// A copy of each text.
pub(crate) fn names_of(alloc: Global, texts: &[&str]) -> Result<List<Name>, NoMemory>
    ensures { IfOk result (λ names. names ≡ map (λ text. text.now) texts.now) }
{
    let mut names = List::new(alloc);
    for text in texts {
        names.push(Name::of(alloc, text)?)?;
    }
    Ok(names)
}
