ghost use Rattle.std.specs.Prelude.{◌≡◌, ℕ, ◌+◌, ◌*◌, ◌^◌, ◌<◌, ◌≤◌, IfOk, IfErr, OnOk, Some, length, slice_get, slice_index_or, []};
ghost use Rattle.base_fields.specs.Numbers.{IsPowerBetween};
ghost use Rattle.block_map.specs.Maps.{IsMap};
ghost use Rattle.block_map.specs.Pieces.{piece, pieces};
ghost use Rattle.block_map.specs.Index.{IsIndex, rows_of};
ghost use Rattle.block_map.specs.Units.{IsRangeOf, cut_of, first_of, max_units, units_by_range, units_in, units_of};
ghost use Rattle.block_map.specs.Faults.{IsCause};

use crate::maps::{BlockMap, bytes_of};
use base_fields::Span;
use std::alloc::{AllocError, Global};
use std::marker::Model;
use thiserror::Error;

/// How many units a map may have.
const MAX_UNITS: u64 = 4_194_304;

/// The units of a map: each of its ranges, as bytes, cut from its first byte into pieces of one size, of which the
/// last is shorter where the range's bytes ask for it. They are numbered from 0 in the order of their bytes.
/// No call on them takes memory. Contracts see the size of a unit, the image's size, and the spans of
/// each range's units.
#[derive(Debug, Drop)]
pub struct Units {
    unit: u64,
    size: u64,
    count: u64,
    parts: Vec<Part>,
}

/// A range: the number of its first unit, and its bytes.
#[derive(Clone, Copy, Debug, PartialEq, Eq)]
struct Part {
    first: u64,
    span: Span,
}

impl Model for Units {
    ghost use Rattle.block_map.specs.Units.{Cut};

    ghost Value = { Cut };

    ghost use Rattle.block_map.specs.Index.{AreIndexed, rows_of};

    ghost view = { λ u. record {
      unit = u.unit;
      size = u.size;
      rows = rows_of u.unit u.parts.items;
    } };

    ghost invariant = { λ u. AreIndexed u.unit u.size u.count u.parts.items };
}

/// Why a map has no units.
#[derive(Clone, Copy, Debug, PartialEq, Eq, Error)]
pub enum UnitFault {
    /// It has `count` units, more than `limit`.
    #[error("{count} units are more than {limit}")]
    TooManyUnits { count: u64, limit: u64 },
    /// Memory was refused.
    #[error("out of memory")]
    NoMemory,
}

impl BlockMap {
    /// The units of `unit` bytes.
    pub fn units(&self, alloc: Global, unit: u32) -> Result<Units, UnitFault>
        requires map { IsMap self.now }
        requires unit { IsPowerBetween 65536 4194304 unit }
        ensures exact { IfOk result (λ units. units ≡ cut_of self.now unit) }
        ensures few { OnOk result (length (units_of self.now unit) ≤ max_units) }
        ensures err { IfErr result (λ fault. IsCause (length (units_of self.now unit)) fault) }
    {
        let unit = u64::from(unit);
        let count = count_units(self, unit);
        if count > MAX_UNITS {
            return Err(UnitFault::TooManyUnits {
                count,
                limit: MAX_UNITS,
            });
        }
        match index_of(alloc, self, unit) {
            Ok(parts) => Ok(Units {
                unit,
                size: self.size,
                count,
                parts,
            }),
            Err(_) => Err(UnitFault::NoMemory),
        }
    }
}

/// How many units of `unit` bytes a map has.
fn count_units(map: &BlockMap, unit: u64) -> u64
    requires map { IsMap map.now }
    requires unit { 65536 ≤ unit }
    ensures { result ≡ length (units_of map.now unit) }
{
    let mut count = 0;
    for range in map.ranges.as_slice() {
        count += pieces_in(bytes_of(map, range), unit);
    }
    count
}

/// The index of a map's units of `unit` bytes.
fn index_of(alloc: Global, map: &BlockMap, unit: u64) -> Result<Vec<Part>, AllocError>
    requires map { IsMap map.now }
    requires unit { 65536 ≤ unit }
    ensures index { let count = length (units_of map.now unit) in
        IfOk result (λ parts. IsIndex unit map.now.size count parts.items) }
    ensures rows { IfOk result (λ parts. rows_of unit parts.items ≡ units_by_range map.now unit) }
{
    let mut parts = Vec::new(alloc);
    let mut first = 0;
    for range in map.ranges.as_slice() {
        let span = bytes_of(map, range);
        parts.push(Part { first, span })?;
        first += pieces_in(span, unit);
    }
    Ok(parts)
}

/// How many pieces of `unit` bytes a span is cut into.
fn pieces_in(span: Span, unit: u64) -> u64
    requires { 0 < unit }
    ensures exact { result ≡ length (pieces unit span) }
    ensures few { span.len ≤ 2 ^ 43 → 65536 ≤ unit → result ≤ 2 ^ 27 }
    ensures some { 0 < span.len → 0 < result }
{
    span.len.div_ceil(unit)
}

/// Piece number `j` of those of `unit` bytes that a span is cut into.
fn piece_in(span: Span, unit: u64, j: u64) -> Span
    requires some { 0 < unit }
    requires within { j * unit < span.len }
    requires bounded { span.at + span.len ≤ 2 ^ 43 }
    ensures exact { result ≡ piece unit span j }
    ensures filled { 0 < result.len }
    ensures most { result.len ≤ unit }
    ensures end { result.at + result.len ≤ span.at + span.len }
{
    let done = j * unit;
    Span {
        at: span.at + done,
        len: unit.min(span.len - done),
    }
}

impl Units {
    /// How many units there are.
    pub fn count(&self) -> u64
        ensures exact { result ≡ length (units_in self.now) }
        ensures few { result ≤ max_units }
    {
        self.count
    }

    /// The bytes of unit `k`.
    pub fn span(&self, k: u64) -> Span
        requires { k < length (units_in self.now) }
        ensures exact { slice_get (units_in self.now) k ≡ Some result }
        ensures filled { 0 < result.len }
        ensures most { result.len ≤ self.now.unit }
        ensures end { result.at + result.len ≤ self.now.size }
    {
        let part = self.parts[self.range_of(k) as usize];
        piece_in(part.span, self.unit, k - part.first)
    }

    /// The number of the range that has unit `k`.
    pub fn range_of(&self, k: u64) -> u64
        requires { k < length (units_in self.now) }
        ensures found { IsRangeOf self.now.rows k result }
        ensures only { (r : ℕ) → IsRangeOf self.now.rows k r → r ≡ result }
    {
        let behind = self.parts.partition_point(|part| part.first <= k);
        behind as u64 - 1
    }

    /// The number of the first unit of range `r`.
    pub fn first_of(&self, r: u64) -> u64
        requires { r < length self.now.rows }
        ensures { result ≡ first_of self.now.rows r }
    {
        self.parts[r as usize].first
    }

    /// How many units range `r` has.
    pub fn count_of(&self, r: u64) -> u64
        requires { r < length self.now.rows }
        ensures exact { result ≡ length (slice_index_or self.now.rows r []) }
        ensures some { 0 < result }
        ensures next { first_of self.now.rows (r + 1) ≡ first_of self.now.rows r + result }
    {
        pieces_in(self.parts[r as usize].span, self.unit)
    }
}
