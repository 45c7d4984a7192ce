//! Copies of sections.
ghost use Rattle.std.specs.Prelude.{◌≡◌, All, IfOk, IfSome};
ghost use Rattle.image_specs.specs.Identifiers.{HasIdentifiers, HasPartIdentifiers, IsIdentifier};

use base_fields::{List, Name, NoMemory};
use conf_keys::{
    FlashSection, HdKeys, Hole, ImageSection, Kind, PartitionSection, PlainKeys, SparseKeys,
};
use std::alloc::Global;

pub fn copy_name(alloc: Global, name: &Name) -> Result<Name, NoMemory>
    ensures { IfOk result (λ copy. copy ≡ name.now) }
{
    Name::of(alloc, name.text())
}

fn copy_given(alloc: Global, name: &Option<Name>) -> Result<Option<Name>, NoMemory>
    ensures { IfOk result (λ copy. copy ≡ name.now) }
{
    match name {
        Some(name) => Ok(Some(copy_name(alloc, name)?)),
        None => Ok(None),
    }
}

fn copy_kinds(alloc: Global, kinds: &List<Kind>) -> Result<List<Kind>, NoMemory>
    ensures { IfOk result (λ copy. copy ≡ kinds.now) }
{
    Ok(List::from_vec(Vec::from_slice(alloc, kinds.as_slice())?))
}

fn copy_holes(alloc: Global, holes: &List<Hole>) -> Result<List<Hole>, NoMemory>
    ensures { IfOk result (λ copy. copy ≡ holes.now) }
{
    Ok(List::from_vec(Vec::from_slice(alloc, holes.as_slice())?))
}

// An identifier, which its type gives 16 bytes.
fn copy_identifier(id: [u8; 16]) -> [u8; 16]
    ensures copy { result ≡ id }
    ensures identifier { IsIdentifier result }
{
    id
}

fn copy_given_identifier(id: Option<[u8; 16]>) -> Option<[u8; 16]>
    ensures copy { result ≡ id }
    ensures identifier { IfSome result IsIdentifier }
{
    match id {
        Some(id) => Some(copy_identifier(id)),
        None => None,
    }
}

fn copy_hd(hd: &HdKeys) -> HdKeys
    ensures copy { result ≡ hd.now }
    ensures identifier { IfSome result.disk_uuid IsIdentifier }
{
    HdKeys {
        align: hd.align,
        partition_table_type: hd.partition_table_type,
        extended_partition: hd.extended_partition,
        disk_signature: hd.disk_signature,
        disk_uuid: copy_given_identifier(hd.disk_uuid),
        gpt_location: hd.gpt_location,
        gpt_no_backup: hd.gpt_no_backup,
        fill: hd.fill,
        sector_size: hd.sector_size,
    }
}

fn copy_part(alloc: Global, part: &PartitionSection) -> Result<PartitionSection, NoMemory>
    ensures copy { IfOk result (λ copy. copy ≡ part.now) }
    ensures identifiers { IfOk result HasPartIdentifiers }
{
    Ok(PartitionSection {
        name: copy_name(alloc, &part.name)?,
        offset: part.offset,
        size: part.size,
        align: part.align,
        image: copy_given(alloc, &part.image)?,
        fill: part.fill,
        autoresize: part.autoresize,
        bootable: part.bootable,
        read_only: part.read_only,
        hidden: part.hidden,
        no_automount: part.no_automount,
        in_partition_table: part.in_partition_table,
        partition_type: part.partition_type,
        partition_uuid: copy_given_identifier(part.partition_uuid),
        partition_type_uuid: copy_identifier(part.partition_type_uuid),
        holes: copy_holes(alloc, &part.holes)?,
    })
}

fn copy_parts(
    alloc: Global,
    parts: &List<PartitionSection>,
) -> Result<List<PartitionSection>, NoMemory>
    ensures copy { IfOk result (λ copy. copy ≡ parts.now) }
    ensures identifiers { IfOk result (All HasPartIdentifiers) }
{
    let mut copy = List::new(alloc);
    for part in parts.as_slice() {
        copy.push(copy_part(alloc, part)?)?;
    }
    Ok(copy)
}

pub fn copy_image(alloc: Global, image: &ImageSection) -> Result<ImageSection, NoMemory>
    ensures copy { IfOk result (λ copy. copy ≡ image.now) }
    ensures identifiers { IfOk result HasIdentifiers }
{
    Ok(ImageSection {
        name: copy_name(alloc, &image.name)?,
        kinds: copy_kinds(alloc, &image.kinds)?,
        size: image.size,
        flashtype: copy_given(alloc, &image.flashtype)?,
        hd: copy_hd(&image.hd),
        sparse: SparseKeys {
            image: copy_given(alloc, &image.sparse.image)?,
            block_size: image.sparse.block_size,
        },
        plain: PlainKeys {
            name: copy_given(alloc, &image.plain.name)?,
        },
        parts: copy_parts(alloc, &image.parts)?,
    })
}

pub fn copy_flash(alloc: Global, flash: &FlashSection) -> Result<FlashSection, NoMemory>
    ensures { IfOk result (λ copy. copy ≡ flash.now) }
{
    Ok(FlashSection {
        name: copy_name(alloc, &flash.name)?,
        pebsize: flash.pebsize,
        numpebs: flash.numpebs,
    })
}
