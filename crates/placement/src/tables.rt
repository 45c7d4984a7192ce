//! The tables of an image.
ghost use Rattle.std.specs.Prelude.{◌≡◌, ◌∷◌, ◌++◌, [], All, IfOk, IsTrue, slice_index_or};
ghost use Rattle.mbr_table.specs.Mbr.{no_entry};
ghost use Rattle.placement.specs.Fitting.{AreSettled, IsChained};
ghost use Rattle.placement.specs.Layouts.{extended_entries, guid_for, guid_spec, hybrid_for, image_size, logical_for, mbr_for, slots};
ghost use Rattle.placement_rules.specs.Frames.{has_guid};

use crate::entries;
use base_fields::{List, NoMemory, TableKind};
use extended_chain::{LogicalSpec, extended_entry};
use gpt_table::GptSpec;
use image_specs::ImageSpec;
use mbr_table::{MbrEntry, MbrSpec, protective_entry};
use placement_claims::Claim;
use placement_rules::{Frame, has_guid};
use std::alloc::Global;
use table_entries::disk_guid;

/// The logical partitions of an mbr, and of no other table.
pub fn logical_for(
    alloc: Global,
    spec: &ImageSpec,
    frame: &Frame,
    claims: &[Claim],
) -> Result<List<LogicalSpec>, NoMemory>
    requires { AreSettled spec.now frame.now claims.now }
    ensures { IfOk result (λ logical. logical ≡ logical_for frame.now.table spec.now claims.now) }
{
    match frame.table {
        TableKind::Mbr => entries::logical_specs(alloc, spec.keys.parts.as_slice(), claims),
        _ => Ok(List::new(alloc)),
    }
}

/// The entries behind the protective one of a hybrid, and of no other table.
pub fn hybrid_for(
    alloc: Global,
    spec: &ImageSpec,
    frame: &Frame,
    claims: &[Claim],
) -> Result<List<MbrEntry>, NoMemory>
    requires { AreSettled spec.now frame.now claims.now }
    ensures { IfOk result (λ entries. entries ≡ hybrid_for frame.now.table spec.now claims.now) }
{
    match frame.table {
        TableKind::Hybrid => entries::hybrid_entries(alloc, spec.keys.parts.as_slice(), claims),
        _ => Ok(List::new(alloc)),
    }
}

/// The master boot record, where there is a table. `logical`, `hybrid` and `size` are those of the image.
pub fn record_for(
    alloc: Global,
    spec: &ImageSpec,
    frame: &Frame,
    claims: &[Claim],
    size: u64,
    logical: &[LogicalSpec],
    hybrid: &[MbrEntry],
) -> Result<Option<MbrSpec>, NoMemory>
    requires settled { AreSettled spec.now frame.now claims.now }
    requires size { size ≡ image_size frame.now claims.now }
    requires logical { logical.now ≡ logical_for frame.now.table spec.now claims.now }
    requires hybrid { hybrid.now ≡ hybrid_for frame.now.table spec.now claims.now }
    ensures { IfOk result (λ made. made ≡ mbr_for frame.now.table spec.now frame.now claims.now) }
{
    let signature = spec.keys.hd.disk_signature;
    match frame.table {
        TableKind::Bare => Ok(None),
        TableKind::Mbr => {
            let parts = spec.keys.parts.as_slice();
            let primary = entries::primary_entries(alloc, parts, claims)?;
            let entries = slots(primary, logical)?;
            Ok(Some(MbrSpec { signature, entries }))
        }
        TableKind::Gpt => Ok(Some(MbrSpec {
            signature,
            entries: guarded(protective_entry(size / u64::from(frame.sector)), &[]),
        })),
        TableKind::Hybrid => Ok(Some(MbrSpec {
            signature,
            entries: guarded(protective_entry(frame.front / 512), hybrid),
        })),
    }
}

/// The GUID partition table, where there is one.
pub fn guid_for(
    alloc: Global,
    spec: &ImageSpec,
    frame: &Frame,
    claims: &[Claim],
    size: u64,
) -> Result<Option<GptSpec>, NoMemory>
    requires settled { AreSettled spec.now frame.now claims.now }
    requires size { size ≡ image_size frame.now claims.now }
    ensures { IfOk result (λ table. table ≡ guid_for spec.now frame.now claims.now) }
{
    if !has_guid(frame.table) {
        return Ok(None);
    }
    let table = guid_spec(alloc, spec, frame, claims, size)?;
    Ok(Some(table))
}

fn guid_spec(
    alloc: Global,
    spec: &ImageSpec,
    frame: &Frame,
    claims: &[Claim],
    size: u64,
) -> Result<GptSpec, NoMemory>
    requires table { IsTrue (has_guid frame.now.table) }
    requires settled { AreSettled spec.now frame.now claims.now }
    requires size { size ≡ image_size frame.now claims.now }
    ensures { IfOk result (λ table. table ≡ guid_spec spec.now frame.now claims.now) }
{
    let image = spec.name.text();
    let parts = spec.keys.parts.as_slice();
    let sector = u64::from(frame.sector);
    Ok(GptSpec {
        disk: disk_guid(alloc, image, &spec.keys.hd)?,
        sectors: size / sector,
        entries_at: frame.entries_at / sector,
        backup: frame.backup,
        entries: entries::guid_entries(alloc, image, parts, claims, frame.sector)?,
        sector: frame.sector,
    })
}

/// The entry number `k`, or an empty one where there are fewer.
fn entry_at(entries: &[MbrEntry], k: usize) -> MbrEntry
    ensures { result ≡ slice_index_or entries.now k no_entry }
{
    entries.get(k).copied().unwrap_or(MbrEntry::EMPTY)
}

/// The four slots of a record: an entry, and up to three behind it.
fn guarded(first: MbrEntry, entries: &[MbrEntry]) -> [MbrEntry; 4]
    ensures { result ≡ first
        ∷ slice_index_or entries.now 0 no_entry
        ∷ slice_index_or entries.now 1 no_entry
        ∷ slice_index_or entries.now 2 no_entry
        ∷ [] }
{
    [
        first,
        entry_at(entries, 0),
        entry_at(entries, 1),
        entry_at(entries, 2),
    ]
}

/// The four slots of an mbr: primary partitions, and the extended one behind them where one is logical.
#[tactic(auto, using(crate::proofs::Slots::four_slots))]
fn slots(primary: List<MbrEntry>, logical: &[LogicalSpec]) -> Result<[MbrEntry; 4], NoMemory>
    requires { All IsChained logical.now }
    ensures { IfOk result (λ four. four ≡ slots primary logical.now) }
{
    let entries = with_extended(primary, logical)?;
    let entries = entries.as_slice();
    Ok([
        entry_at(entries, 0),
        entry_at(entries, 1),
        entry_at(entries, 2),
        entry_at(entries, 3),
    ])
}

/// Primary partitions, and the extended one behind them where one is logical.
fn with_extended(
    primary: List<MbrEntry>,
    logical: &[LogicalSpec],
) -> Result<List<MbrEntry>, NoMemory>
    requires { All IsChained logical.now }
    ensures { IfOk result (λ entries. entries ≡ primary ++ extended_entries logical.now) }
{
    let mut entries = primary;
    if !logical.is_empty() {
        entries.push(extended_entry(logical))?;
    }
    Ok(entries)
}
