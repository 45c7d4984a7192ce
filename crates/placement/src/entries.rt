//! The entries of the tables, one for each partition that they have.
ghost use Rattle.std.specs.Prelude.{◌≡◌, All, IfOk, length, unwrap_or};
ghost use Rattle.conf_keys.specs.Within.{IsPartitionWithin};
ghost use Rattle.placement.specs.Fitting.{FitsRecord, FitsWhere, IsSector};
ghost use Rattle.placement.specs.Layouts.{guid_entries_in, hybrid_entries, is_primary, logical_specs, primary_entries};
ghost use Rattle.table_entries.specs.Entries.{gpt_entry_of, logical_spec_of, mbr_entry_of};

use crate::extended::is_primary;
use base_fields::{List, NoMemory};
use conf_keys::PartitionSection;
use extended_chain::LogicalSpec;
use gpt_table::GptEntry;
use mbr_table::MbrEntry;
use placement_claims::Claim;
use std::alloc::Global;
use table_entries::{gpt_entry, logical_spec, mbr_entry};

/// The entries of the primary partitions of an mbr.
pub fn primary_entries(
    alloc: Global,
    parts: &[PartitionSection],
    claims: &[Claim],
) -> Result<List<MbrEntry>, NoMemory>
    requires count { length claims.now ≡ length parts.now }
    requires within { All IsPartitionWithin parts.now }
    requires fits { All (FitsWhere is_primary) claims.now }
    ensures { IfOk result (λ entries. entries ≡ primary_entries parts.now claims.now) }
{
    let mut entries = List::new(alloc);
    for k in 0..claims.len() {
        if !is_primary(&claims[k]) {
            continue;
        }
        entries.push(record_entry(&parts[k], &claims[k]))?;
    }
    Ok(entries)
}

/// The logical partitions of an mbr.
pub fn logical_specs(
    alloc: Global,
    parts: &[PartitionSection],
    claims: &[Claim],
) -> Result<List<LogicalSpec>, NoMemory>
    requires count { length claims.now ≡ length parts.now }
    requires within { All IsPartitionWithin parts.now }
    requires fits { All (FitsWhere (λ s. s.terms.logical)) claims.now }
    ensures { IfOk result (λ specs. specs ≡ logical_specs parts.now claims.now) }
{
    let mut specs = List::new(alloc);
    for k in 0..claims.len() {
        if !is_logical(&claims[k]) {
            continue;
        }
        specs.push(chain_spec(&parts[k], &claims[k]))?;
    }
    Ok(specs)
}

/// The entries behind the protective one of a hybrid.
pub fn hybrid_entries(
    alloc: Global,
    parts: &[PartitionSection],
    claims: &[Claim],
) -> Result<List<MbrEntry>, NoMemory>
    requires count { length claims.now ≡ length parts.now }
    requires within { All IsPartitionWithin parts.now }
    requires fits { All (FitsWhere (λ s. s.terms.narrow)) claims.now }
    ensures { IfOk result (λ entries. entries ≡ hybrid_entries parts.now claims.now) }
{
    let mut entries = List::new(alloc);
    for k in 0..claims.len() {
        if !is_narrow(&claims[k]) {
            continue;
        }
        entries.push(record_entry(&parts[k], &claims[k]))?;
    }
    Ok(entries)
}

/// The entries of a GUID partition table. `image` is the name of the image's section.
pub fn guid_entries(
    alloc: Global,
    image: &str,
    parts: &[PartitionSection],
    claims: &[Claim],
    sector: u32,
) -> Result<List<GptEntry>, NoMemory>
    requires count { length claims.now ≡ length parts.now }
    requires within { All IsPartitionWithin parts.now }
    requires sector { IsSector sector }
    ensures { IfOk result (λ entries. entries ≡ guid_entries_in image.now sector parts.now claims.now) }
{
    let mut entries = List::new(alloc);
    for k in 0..claims.len() {
        if !is_tabled(&claims[k]) {
            continue;
        }
        entries.push(guid_entry(alloc, image, &parts[k], &claims[k], sector)?)?;
    }
    Ok(entries)
}

fn is_logical(claim: &Claim) -> bool
    ensures { result ≡ claim.now.terms.logical }
{
    claim.terms().logical
}

fn is_narrow(claim: &Claim) -> bool
    ensures { result ≡ claim.now.terms.narrow }
{
    claim.terms().narrow
}

fn is_tabled(claim: &Claim) -> bool
    ensures { result ≡ claim.now.terms.tabled }
{
    claim.terms().tabled
}

/// The entry of a partition in a master boot record.
fn record_entry(part: &PartitionSection, claim: &Claim) -> MbrEntry
    requires within { IsPartitionWithin part.now }
    requires fits { FitsRecord claim.now }
    ensures { result ≡ mbr_entry_of part.now claim.now.place.at claim.now.place.size }
{
    let place = claim.place();
    mbr_entry(part, place.at, place.size)
}

/// A logical partition with its boot record.
fn chain_spec(part: &PartitionSection, claim: &Claim) -> LogicalSpec
    requires within { IsPartitionWithin part.now }
    requires fits { FitsRecord claim.now }
    ensures { result ≡ logical_spec_of part.now
        (unwrap_or claim.now.place.head 0) claim.now.place.at claim.now.place.size }
{
    let place = claim.place();
    logical_spec(part, place.head.unwrap_or(0), place.at, place.size)
}

/// The entry of a partition in a GUID partition table.
fn guid_entry(
    alloc: Global,
    image: &str,
    part: &PartitionSection,
    claim: &Claim,
    sector: u32,
) -> Result<GptEntry, NoMemory>
    requires within { IsPartitionWithin part.now }
    requires sector { IsSector sector }
    ensures { IfOk result (λ entry. entry ≡ gpt_entry_of
        image.now part.now claim.now.place.at claim.now.place.size sector) }
{
    let _end = claim.end();
    let place = claim.place();
    gpt_entry(alloc, image, part, place.at, place.size, sector)
}
