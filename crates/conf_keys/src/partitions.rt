//! The keys of a partition, from its items in order.
ghost use Rattle.std.specs.Prelude.{◌≡◌, ◌++◌, IfOk, OnOk, fold};
ghost use Rattle.conf_keys.specs.Holes.{given_holes, holes_of, with_hole, with_item};
ghost use Rattle.conf_keys.specs.Holes.{with_setting};
ghost use Rattle.conf_keys.specs.Items.{inner_keys};
ghost use Rattle.conf_keys.specs.Partitions.{partition_head_fault, partition_of, partition_values};
ghost use Rattle.conf_keys.specs.Partitions.{type_at};
ghost use Rattle.conf_keys.specs.Sections.{Answers};
ghost use Rattle.conf_keys.specs.Within.{IsPartitionWithin};

use crate::checking::SectionFault;
use crate::conf::PartitionSection;
use crate::items::last_text;
use crate::sections::{
    identifier_at, kept, name_at, name_text, number_at, section_fault, size_at, truth_at,
};
use crate::settings::Section;
use base_fields::{List, Name, NoMemory};
use conf_items::{Given, Head, InnerItem, Setting, Value, Word};
use conf_values::{Hole, LINUX_DATA};
use std::alloc::Global;

fn partition_head_fault(head: &Head) -> Option<SectionFault>
    ensures { result ≡ partition_head_fault head.now }
{
    match &head.name {
        Some(name) if conf_values::is_partition_name(name.text.text().as_bytes()) => None,
        Some(name) => Some(SectionFault::BadValue { place: name.place }),
        None => Some(SectionFault::BadValue {
            place: head.word.place,
        }),
    }
}

fn type_at(items: &[InnerItem]) -> Option<[u8; 16]>
    ensures { result ≡ type_at (inner_keys items.now) }
{
    conf_values::partition_type(last_text(items, "partition-type-uuid")?)
}

// Adds the hole of a word, where it is one.
fn add_hole(holes: &mut List<Hole>, word: &Word) -> Result<(), NoMemory>
    ensures { OnOk result (holes.new ≡ with_hole holes.old word.now) }
{
    if let Some(hole) = conf_values::hole_of(word.text.text().as_bytes()) {
        holes.push(hole)?;
    }
    Ok(())
}

fn add_holes(holes: &mut List<Hole>, words: &[Word]) -> Result<(), NoMemory>
    ensures { OnOk result (holes.new ≡ fold with_hole holes.old words.now) }
{
    for word in words {
        add_hole(holes, word)?;
    }
    Ok(())
}

// The holes behind what the key is given: `=` begins them anew.
fn given_holes(alloc: Global, mut holes: List<Hole>, given: &Given) -> Result<List<Hole>, NoMemory>
    ensures { IfOk result (λ after. after ≡ given_holes holes given.now) }
{
    match given {
        Given::Set(Value::Many(_, words)) => {
            let mut fresh = List::new(alloc);
            add_holes(&mut fresh, words.as_slice())?;
            Ok(fresh)
        }
        Given::Added(Value::Many(_, words)) => {
            add_holes(&mut holes, words.as_slice())?;
            Ok(holes)
        }
        _ => Ok(holes),
    }
}

fn with_setting(alloc: Global, holes: List<Hole>, setting: &Setting) -> Result<List<Hole>, NoMemory>
    ensures { IfOk result (λ after. after ≡ with_setting holes setting.now) }
{
    if setting.key.text.text() == "holes" {
        given_holes(alloc, holes, &setting.given)
    } else {
        Ok(holes)
    }
}

fn with_item(alloc: Global, holes: List<Hole>, item: &InnerItem) -> Result<List<Hole>, NoMemory>
    ensures { IfOk result (λ after. after ≡ with_item holes item.now) }
{
    match item {
        InnerItem::Key(setting) => with_setting(alloc, holes, setting),
        InnerItem::Section(_) => Ok(holes),
    }
}

fn holes_at(alloc: Global, items: &[InnerItem]) -> Result<List<Hole>, NoMemory>
    ensures { IfOk result (λ holes. holes ≡ holes_of (inner_keys items.now)) }
{
    let mut holes = List::new(alloc);
    for item in items {
        holes = with_item(alloc, holes, item)?;
    }
    Ok(holes)
}

fn partition_values(
    alloc: Global,
    head: &Head,
    items: &[InnerItem],
) -> Result<PartitionSection, NoMemory>
    ensures { IfOk result (λ keys. keys ≡ partition_values head.now (inner_keys items.now)) }
{
    Ok(PartitionSection {
        name: Name::of(alloc, name_text(head))?,
        offset: size_at(items, "offset", 0),
        size: size_at(items, "size", 0),
        align: size_at(items, "align", 1),
        image: name_at(alloc, items, "image")?,
        fill: truth_at(items, "fill").unwrap_or(false),
        autoresize: truth_at(items, "autoresize").unwrap_or(false),
        bootable: truth_at(items, "bootable").unwrap_or(false),
        read_only: truth_at(items, "read-only").unwrap_or(false),
        hidden: truth_at(items, "hidden").unwrap_or(false),
        no_automount: truth_at(items, "no-automount").unwrap_or(false),
        in_partition_table: truth_at(items, "in-partition-table").unwrap_or(true),
        partition_type: number_at(items, "partition-type", 1, 255),
        partition_uuid: identifier_at(items, "partition-uuid"),
        partition_type_uuid: type_at(items).unwrap_or(LINUX_DATA),
        holes: holes_at(alloc, items)?,
    })
}

/// The keys of a section `partition`, or its first fault in order, where those of its name stand
/// first. Takes memory.
pub fn read_partition(
    alloc: Global,
    head: &Head,
    items: &[InnerItem],
) -> Result<PartitionSection, SectionFault>
    ensures keys { Answers (partition_of head.now items.now) result }
    ensures within { IfOk result IsPartitionWithin }
{
    match section_fault(partition_head_fault(head), Section::Partition, items) {
        Some(fault) => Err(fault),
        None => kept(partition_values(alloc, head, items)),
    }
}
