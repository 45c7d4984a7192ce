ghost use Rattle.std.specs.Prelude.{◌≡◌, ℕ, ◌+◌, ◌*◌, ◌^◌, ◌≤◌, ◌∷◌, ◌&&◌, [], All, IfOk, IfSome, OnOk, if◌then◌else◌, length, nat_lt};
ghost use Rattle.extended_chain.specs.Chain.{chain_parts};
ghost use Rattle.gpt_table.specs.GptParts.{back_entries_part, back_part, entries_part, front_part};
ghost use Rattle.span_cover.specs.Cover.{covers};
ghost use Rattle.image_layout.specs.Covering.{CanBeCovered, FitsDisk, Gains, is_in, is_left, is_shown};
ghost use Rattle.image_layout.specs.IsLayout.{AreHoles, IsPart};
ghost use Rattle.image_layout.specs.Layout.{guid_parts_of, is_covered, record_parts_of};
ghost use Rattle.std.specs.List.{list_any};

use crate::{Layout, Placed};
use base_fields::{NoMemory, Span};
use extended_chain::LogicalSpec;
use gpt_table::GptSpec;
use mbr_table::MbrSpec;
use span_cover::Cover;
use std::alloc::Global;

/// Where a master boot record has its disk signature, and the bytes from there to its end.
const RECORD: Span = Span { at: 440, len: 72 };

/// The sector of a disk with a chain of boot records.
const SECTOR: u64 = 512;

/// The bytes of the 128 entries of a GUID partition table.
const ENTRIES_LEN: u64 = 16384;

impl Layout {
    /// The offsets that a map of the image names: those of its tables, of its partitions' files,
    /// of all that a partition claims where it is `whole`, and all of the image where that is.
    pub fn covered(&self, alloc: Global) -> Result<Cover, NoMemory>
        requires { CanBeCovered self.now }
        ensures covered { IfOk result (λ cover. (o : ℕ) → covers cover o ≡ is_covered self.now o) }
        ensures few { IfOk result (λ cover. length cover ≤ 262144) }
    {
        let mut cover = Cover::new(alloc);
        add_whole(&mut cover, self.whole, self.size)?;
        add_record(&mut cover, &self.mbr)?;
        add_chain(&mut cover, self.logical.as_slice())?;
        add_guid(&mut cover, &self.gpt)?;
        add_parts(&mut cover, self.parts.as_slice())?;
        Ok(cover)
    }
}

impl Placed {
    ghost use Rattle.image_layout.specs.Covering.{reach_of};

    /// How many of its bytes are covered, with those that are in its holes.
    fn reach(&self) -> u64
        ensures { result ≡ reach_of self.now }
    {
        if self.whole { self.size } else { self.len }
    }
}

/// Adds all of an image, where all of it is covered.
fn add_whole(cover: &mut Cover, whole: bool, size: u64) -> Result<(), NoMemory>
    requires { size ≤ 2 ^ 43 }
    ensures ok { OnOk result (Gains cover.old (λ o. whole && nat_lt o size) cover.new) }
    ensures few { length cover.new ≤ length cover.old + 1 }
{
    if !whole {
        return Ok(());
    }
    cover.add(Span { at: 0, len: size })?;
    Ok(())
}

/// Adds a master boot record from its signature on.
fn add_record(cover: &mut Cover, mbr: &Option<MbrSpec>) -> Result<(), NoMemory>
    ensures ok { OnOk result (Gains cover.old (is_in (record_parts_of mbr.now)) cover.new) }
    ensures few { length cover.new ≤ length cover.old + 1 }
{
    match mbr {
        None => Ok(()),
        Some(_) => {
            cover.add(RECORD)?;
            Ok(())
        }
    }
}

/// Adds the boot record of each logical partition.
fn add_chain(cover: &mut Cover, logical: &[LogicalSpec]) -> Result<(), NoMemory>
    ensures ok { OnOk result (Gains cover.old (is_in (chain_parts logical.now)) cover.new) }
    ensures few { length cover.new ≤ length cover.old + length logical.now }
{
    for spec in logical {
        cover.add(Span {
            at: SECTOR * u64::from(spec.head),
            len: SECTOR,
        })?;
    }
    Ok(())
}

/// Adds a GUID partition table, where there is one.
fn add_guid(cover: &mut Cover, guid: &Option<GptSpec>) -> Result<(), NoMemory>
    requires { IfSome guid.now FitsDisk }
    ensures ok { OnOk result (Gains cover.old (is_in (guid_parts_of guid.now)) cover.new) }
    ensures few { length cover.new ≤ length cover.old + 4 }
{
    match guid {
        None => Ok(()),
        Some(guid) => {
            add_front(cover, guid)?;
            add_back(cover, guid)?;
            Ok(())
        }
    }
}

/// Adds the header at LBA 1 and its entries.
fn add_front(cover: &mut Cover, guid: &GptSpec) -> Result<(), NoMemory>
    requires { FitsDisk guid.now }
    ensures ok { OnOk result (Gains cover.old (is_in (front_part guid.now ∷ entries_part guid.now ∷ [])) cover.new) }
    ensures few { length cover.new ≤ length cover.old + 2 }
{
    let sector = u64::from(guid.sector);
    cover.add(Span {
        at: sector,
        len: sector,
    })?;
    cover.add(Span {
        at: guid.entries_at * sector,
        len: ENTRIES_LEN,
    })?;
    Ok(())
}

/// Adds the backup, where there is one: its entries, and its header in the last sector.
fn add_back(cover: &mut Cover, guid: &GptSpec) -> Result<(), NoMemory>
    requires { FitsDisk guid.now }
    ensures ok { OnOk result (Gains cover.old (is_in
        (if guid.now.backup then back_entries_part guid.now ∷ back_part guid.now ∷ [] else [])) cover.new) }
    ensures few { length cover.new ≤ length cover.old + 2 }
{
    if !guid.backup {
        return Ok(());
    }
    let sector = u64::from(guid.sector);
    let last = guid.sectors - 1;
    cover.add(Span {
        at: (last - ENTRIES_LEN / sector) * sector,
        len: ENTRIES_LEN,
    })?;
    cover.add(Span {
        at: last * sector,
        len: sector,
    })?;
    Ok(())
}

/// Adds what each partition covers.
fn add_parts(cover: &mut Cover, parts: &[Placed]) -> Result<(), NoMemory>
    requires { All (IsPart (2 ^ 43)) parts.now }
    ensures ok { OnOk result (Gains cover.old (λ o. list_any (λ p. is_shown p o) parts.now) cover.new) }
    ensures few { length cover.new ≤ length cover.old + 65 * length parts.now }
{
    for part in parts {
        add_part(cover, part)?;
    }
    Ok(())
}

/// Adds what a partition covers.
fn add_part(cover: &mut Cover, part: &Placed) -> Result<(), NoMemory>
    requires { IsPart (2 ^ 43) part.now }
    ensures ok { OnOk result (Gains cover.old (is_shown part.now) cover.new) }
    ensures few { length cover.new ≤ length cover.old + 65 }
{
    add_between(cover, part.at, part.reach(), part.holes.as_slice())?;
    Ok(())
}

/// Adds what the holes leave of so many bytes from a place on.
fn add_between(cover: &mut Cover, at: u64, reach: u64, holes: &[Span]) -> Result<(), NoMemory>
    requires end { at + reach ≤ 2 ^ 43 }
    requires holes { AreHoles holes.now }
    ensures ok { OnOk result (Gains cover.old (is_left at reach holes.now) cover.new) }
    ensures few { length cover.new ≤ length cover.old + length holes.now + 1 }
{
    let mut from = 0;
    for hole in holes {
        cover.add(Span {
            at: at + from,
            len: hole.at.min(reach).saturating_sub(from),
        })?;
        from = hole.at + hole.len;
    }
    cover.add(Span {
        at: at + from,
        len: reach.saturating_sub(from),
    })?;
    Ok(())
}
