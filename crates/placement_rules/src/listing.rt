//! What the rules look at of each partition of an image.
ghost use Rattle.std.specs.Prelude.{◌≡◌, ◌^◌, ◌<◌, ◌≤◌, ◌∷◌, [], IsTrue, IfOk, length};
ghost use Rattle.conf_keys.specs.Within.{IsImageWithin};
ghost use Rattle.image_specs.specs.IsSpec.{IsSpec};
ghost use Rattle.placement_rules.specs.Bounds.{AreTerms, is_placed};
ghost use Rattle.placement_rules.specs.Counts.{AreCountsBehind, IsTermsBehind, primaries_of};
ghost use Rattle.placement_rules.specs.Terms.{align_of, default_align, file_terms, holes_of, in_table, in_tables, is_typed, names_of, primaries, terms, terms_from};

use crate::Terms;
use crate::frames::has_table;
use base_fields::{List, NoMemory, TableKind};
use conf_keys::{HdKeys, Kind, PartitionSection};
use image_specs::ImageSpec;
use std::alloc::Global;

/// How many of some partitions the table has, and how many of these a hybrid's record may have.
#[derive(Clone, Copy, Debug, PartialEq, Eq)]
struct Counts {
    tabled: usize,
    typed: usize,
}

fn default_align(table: TableKind) -> u64
    ensures { result ≡ default_align table }
{
    match table {
        TableKind::Bare => 1,
        TableKind::Mbr => 512,
        TableKind::Gpt | TableKind::Hybrid => 1_048_576,
    }
}

/// Whether the table has a partition.
fn in_table(table: TableKind, part: &PartitionSection) -> bool
    ensures { result ≡ in_table table part.now }
{
    has_table(table) && part.in_partition_table
}

/// Whether a hybrid's record may have a partition.
fn is_typed(table: TableKind, part: &PartitionSection) -> bool
    ensures { result ≡ is_typed table part.now }
{
    in_table(table, part) && part.partition_type.is_some()
}

fn align_of(table: TableKind, hd: &HdKeys, part: &PartitionSection) -> u64
    ensures { result ≡ align_of table hd.now part.now }
{
    let otherwise = if in_table(table, part) {
        hd.align.unwrap_or(default_align(table))
    } else {
        1
    };
    part.align.unwrap_or(otherwise)
}

/// How many of the `count` partitions that an mbr has are primary: those in front of the extended partition's slot.
fn primaries(extended_partition: u32, count: usize) -> usize
    ensures { result ≡ primaries extended_partition count }
{
    match extended_partition {
        0 if count <= 4 => count,
        0 => 3,
        slot => slot as usize - 1,
    }
}

/// How many partitions the table has.
pub fn count_tabled(table: TableKind, parts: &[PartitionSection]) -> usize
    ensures { result ≡ length (in_tables table parts.now) }
{
    parts.iter().filter(|part| in_table(table, part)).count()
}

/// How many there are with one partition more.
fn counted(table: TableKind, before: Counts, part: &PartitionSection) -> Counts
    requires tabled { before.tabled < 2 ^ 32 }
    requires typed { before.typed < 2 ^ 32 }
    ensures { AreCountsBehind table part.now before result }
{
    Counts {
        tabled: before.tabled + usize::from(in_table(table, part)),
        typed: before.typed + usize::from(is_typed(table, part)),
    }
}

/// What the rules look at of a partition behind as many as `before` says, where `primary` of the table are primary.
fn part_terms(
    spec: &ImageSpec,
    part: &PartitionSection,
    before: Counts,
    primary: usize,
    len: u64,
    last: bool,
) -> Terms
    requires primary { primary ≡ primaries_of spec.now }
    ensures { IsTermsBehind spec.now part.now before last len result }
{
    let hd = &spec.keys.hd;
    let table = hd.partition_table_type;
    let tabled = in_table(table, part);
    let in_mbr = matches!(table, TableKind::Mbr) && tabled;
    let in_hybrid = matches!(table, TableKind::Hybrid) && is_typed(table, part);
    Terms {
        offset: part.offset,
        size: part.size,
        align: align_of(table, hd, part),
        len,
        autoresize: part.autoresize,
        tabled,
        logical: in_mbr && primary <= before.tabled,
        narrow: in_mbr || (in_hybrid && before.typed < 3),
        last,
    }
}

/// What the rules look at of an image of one file.
fn file_terms(alloc: Global, len: u64) -> Result<List<Terms>, NoMemory>
    ensures { IfOk result (λ ts. ts ≡ file_terms len ∷ []) }
{
    let mut terms = List::new(alloc);
    terms.push(Terms {
        offset: None,
        size: None,
        align: 1,
        len,
        autoresize: false,
        tabled: false,
        logical: false,
        narrow: false,
        last: true,
    })?;
    Ok(terms)
}

/// What the rules look at of each partition of a disk image.
fn all_terms(alloc: Global, spec: &ImageSpec, lens: &[u64]) -> Result<List<Terms>, NoMemory>
    requires within { IsImageWithin spec.now.keys }
    requires few { length spec.now.keys.parts ≤ 256 }
    requires lens { length lens.now ≡ length spec.now.keys.parts }
    ensures terms { IfOk result (λ ts.
        ts ≡ terms_from spec.now spec.now.keys.hd.partition_table_type [] spec.now.keys.parts lens.now) }
    ensures within { IfOk result AreTerms }
    ensures count { IfOk result (λ ts. length ts ≡ length spec.now.keys.parts) }
{
    let hd = &spec.keys.hd;
    let table = hd.partition_table_type;
    let parts = spec.keys.parts.as_slice();
    let primary = primaries(hd.extended_partition, count_tabled(table, parts));
    let mut before = Counts {
        tabled: 0,
        typed: 0,
    };
    let mut terms = List::new(alloc);
    for (k, part) in parts.iter().enumerate() {
        let last = k + 1 == parts.len();
        terms.push(part_terms(spec, part, before, primary, lens[k], last))?;
        before = counted(table, before, part);
    }
    Ok(terms)
}

/// What the rules look at of each partition, in order, by the lengths of their files, 0 where a partition has none. An image
/// of kind `Plain` has one part. Takes memory.
pub fn terms_of(alloc: Global, spec: &ImageSpec, lens: &[u64]) -> Result<List<Terms>, NoMemory>
    requires spec { IsSpec spec.now }
    requires kind { IsTrue (is_placed spec.now.kind) }
    requires lens { length lens.now ≡ length spec.now.sources }
    ensures terms { IfOk result (λ ts. ts ≡ terms spec.now lens.now) }
    ensures within { IfOk result AreTerms }
    ensures names { IfOk result (λ ts. length ts ≡ length (names_of spec.now)) }
    ensures holes { IfOk result (λ ts. length ts ≡ length (holes_of spec.now)) }
{
    match spec.kind {
        Kind::Hd => all_terms(alloc, spec, lens),
        _ => file_terms(alloc, lens[0]),
    }
}
