//! The keys of each section, from its items in order.
ghost use Rattle.std.specs.Prelude.{◌≡◌, IfOk, IfSome, IsSome, MatchResult, option_copied};
ghost use Rattle.conf_keys.specs.Checking.{setting_fault};
ghost use Rattle.conf_keys.specs.Items.{inner_keys, top_keys};
ghost use Rattle.conf_keys.specs.Settings.{last_text};
ghost use Rattle.conf_keys.specs.Sections.{Answers, flash_head_fault, flash_of};
ghost use Rattle.conf_keys.specs.Sections.{flash_values, image_values, is_past, is_too_large};
ghost use Rattle.conf_keys.specs.Sections.{lacks_key, name_text, named_fault, numpebs_at};
ghost use Rattle.conf_keys.specs.Sections.{pebsize_at, block_size_at, config_of, config_values};
ghost use Rattle.conf_keys.specs.Sections.{hd_of, hd_section, hd_values, identifier_at, is_wide};
ghost use Rattle.conf_keys.specs.Sections.{number_at, plain_of, plain_values, section_fault};
ghost use Rattle.conf_keys.specs.Sections.{sector_at, size_at, sparse_head_fault, sparse_of};
ghost use Rattle.conf_keys.specs.Sections.{sparse_values, table_at, top_section_fault, truth_at};
ghost use Rattle.conf_keys.specs.Sections.{unnamed_fault};
ghost use Rattle.conf_keys.specs.Within.{IsFlashWithin, IsHdWithin, IsSizeFrom, IsSparseWithin};

use crate::checking::{SectionFault, first_fault, first_top_fault, setting_fault};
use crate::conf::{ConfigKeys, FlashSection, HdKeys, ImageKeys, PlainKeys, SparseKeys};
use crate::items::{last, last_text, last_top, last_top_text};
use crate::settings::Section;
use base_fields::{Name, NoMemory, TableKind};
use conf_items::{Head, InnerItem, SectionItem, Setting};
use conf_values::MOST_SIZE;
use std::alloc::Global;

// The fault of a section that has to have a name, of one character or more.
fn named_fault(head: &Head) -> Option<SectionFault>
    ensures { result ≡ named_fault head.now }
{
    match &head.name {
        Some(name) if name.text.text().is_empty() => {
            Some(SectionFault::BadValue { place: name.place })
        }
        Some(_) => None,
        None => Some(SectionFault::BadValue {
            place: head.word.place,
        }),
    }
}

/// The text of a section's name, empty where it has none.
pub fn name_text(head: &Head) -> &str
    ensures { result.now ≡ name_text head.now }
{
    match &head.name {
        Some(name) => name.text.text(),
        None => "",
    }
}

// The fault of a section that has no name.
fn unnamed_fault(head: &Head) -> Option<SectionFault>
    ensures { result ≡ unnamed_fault head.now }
{
    match &head.name {
        Some(name) => Some(SectionFault::BadValue { place: name.place }),
        None => None,
    }
}

// The fault of the section's head, else the first of its items.
pub(crate) fn section_fault(
    head: Option<SectionFault>,
    section: Section,
    items: &[InnerItem],
) -> Option<SectionFault>
    ensures { result ≡ section_fault head section items.now }
{
    match head {
        Some(fault) => Some(fault),
        None => first_fault(section, items),
    }
}

fn top_section_fault(
    head: Option<SectionFault>,
    section: Section,
    items: &[SectionItem],
) -> Option<SectionFault>
    ensures { result ≡ top_section_fault head section items.now }
{
    match head {
        Some(fault) => Some(fault),
        None => first_top_fault(section, items),
    }
}

pub(crate) fn size_at(items: &[InnerItem], key: &str, least: u64) -> Option<u64>
    ensures { result ≡ size_at least key.now (inner_keys items.now) }
{
    conf_values::size_from(last_text(items, key)?.as_bytes(), least)
}

pub(crate) fn number_at(items: &[InnerItem], key: &str, least: u32, most: u32) -> Option<u32>
    ensures { result ≡ number_at least most key.now (inner_keys items.now) }
{
    let text = last_text(items, key)?.as_bytes();
    let number = conf_values::number_between(text, u64::from(least), u64::from(most))?;
    Some(number as u32)
}

pub(crate) fn truth_at(items: &[InnerItem], key: &str) -> Option<bool>
    ensures { result ≡ truth_at key.now (inner_keys items.now) }
{
    conf_values::truth(last_text(items, key)?)
}

pub(crate) fn identifier_at(items: &[InnerItem], key: &str) -> Option<[u8; 16]>
    ensures { result ≡ identifier_at key.now (inner_keys items.now) }
{
    conf_values::identifier(last_text(items, key)?)
}

// ---- hdimage

fn table_at(items: &[InnerItem]) -> Option<TableKind>
    ensures { result ≡ table_at (inner_keys items.now) }
{
    conf_values::table(last_text(items, "partition-table-type")?)
}

// Whether its table goes with sectors of 4096 bytes.
fn is_wide(items: &[InnerItem]) -> bool
    ensures { result ≡ is_wide (inner_keys items.now) }
{
    matches!(table_at(items), Some(TableKind::Gpt | TableKind::Bare))
}

fn sector_at(items: &[InnerItem], wide: bool) -> Option<u32>
    ensures { result ≡ sector_at wide (inner_keys items.now) }
{
    conf_values::sector(last_text(items, "sector-size")?.as_bytes(), wide)
}

fn hd_section(items: &[InnerItem]) -> Section
    ensures { result ≡ hd_section (inner_keys items.now) }
{
    let wide = is_wide(items);
    Section::Hd {
        wide,
        sector: sector_at(items, wide).unwrap_or(512),
    }
}

fn hd_values(items: &[InnerItem]) -> HdKeys
    ensures { result ≡ hd_values (inner_keys items.now) }
{
    let sector_size = sector_at(items, is_wide(items)).unwrap_or(512);
    let first = 2 * u64::from(sector_size);
    HdKeys {
        align: size_at(items, "align", 1),
        partition_table_type: table_at(items).unwrap_or(TableKind::Mbr),
        extended_partition: number_at(items, "extended-partition", 0, 4).unwrap_or(0),
        disk_signature: number_at(items, "disk-signature", 0, u32::MAX).unwrap_or(0),
        disk_uuid: identifier_at(items, "disk-uuid"),
        gpt_location: size_at(items, "gpt-location", first).unwrap_or(first),
        gpt_no_backup: truth_at(items, "gpt-no-backup").unwrap_or(false),
        fill: truth_at(items, "fill").unwrap_or(false),
        sector_size,
    }
}

/// The keys of a section `hdimage`, or its first fault in order: that of its name, which it may not
/// have, and then those of its items. Sectors of 4096 bytes go with the kinds gpt and none of
/// its last `partition-table-type` alone. `gpt-location` is at least twice the section's last
/// sector size, or twice 512 where that is refused.
pub fn read_hd(head: &Head, items: &[InnerItem]) -> Result<HdKeys, SectionFault>
    ensures keys { result ≡ hd_of head.now items.now }
    ensures within { IfOk result IsHdWithin }
{
    match section_fault(unnamed_fault(head), hd_section(items), items) {
        Some(fault) => Err(fault),
        None => Ok(hd_values(items)),
    }
}

// ---- sections with texts

// The values, or want of memory.
pub(crate) fn kept<Keys>(got: Result<Keys, NoMemory>) -> Result<Keys, SectionFault>
    ensures { MatchResult got (λ keys. result ≡ Ok keys) (λ _. result ≡ Err SectionFault.NoMemory) }
{
    match got {
        Ok(keys) => Ok(keys),
        Err(NoMemory) => Err(SectionFault::NoMemory),
    }
}

// A text as a name, where there is one.
fn name_in(alloc: Global, text: Option<&str>) -> Result<Option<Name>, NoMemory>
    ensures { IfOk result (λ name. name ≡ option_copied text.entry) }
{
    match text {
        Some(text) => Ok(Some(Name::of(alloc, text)?)),
        None => Ok(None),
    }
}

pub(crate) fn name_at(
    alloc: Global,
    items: &[InnerItem],
    key: &str,
) -> Result<Option<Name>, NoMemory>
    ensures { IfOk result (λ name. name ≡ last_text key.now (inner_keys items.now)) }
{
    name_in(alloc, last_text(items, key))
}

fn top_name_at(alloc: Global, items: &[SectionItem], key: &str) -> Result<Option<Name>, NoMemory>
    ensures { IfOk result (λ name. name ≡ last_text key.now (top_keys items.now)) }
{
    name_in(alloc, last_top_text(items, key))
}

fn top_size_at(items: &[SectionItem], key: &str, least: u64) -> Option<u64>
    ensures { result ≡ size_at least key.now (top_keys items.now) }
{
    conf_values::size_from(last_top_text(items, key)?.as_bytes(), least)
}

// ---- config

fn config_values(alloc: Global, items: &[SectionItem]) -> Result<ConfigKeys, NoMemory>
    ensures { IfOk result (λ keys. keys ≡ config_values (top_keys items.now)) }
{
    Ok(ConfigKeys {
        inputpath: top_name_at(alloc, items, "inputpath")?,
        outputpath: top_name_at(alloc, items, "outputpath")?,
    })
}

/// The paths of a section `config`, or its first fault in order. Takes memory.
pub fn read_config(
    alloc: Global,
    head: &Head,
    items: &[SectionItem],
) -> Result<ConfigKeys, SectionFault>
    ensures { Answers (config_of head.now items.now) result }
{
    match top_section_fault(unnamed_fault(head), Section::Config, items) {
        Some(fault) => Err(fault),
        None => kept(config_values(alloc, items)),
    }
}

// ---- file

fn plain_values(alloc: Global, items: &[InnerItem]) -> Result<PlainKeys, NoMemory>
    ensures { IfOk result (λ keys. keys ≡ plain_values (inner_keys items.now)) }
{
    Ok(PlainKeys {
        name: name_at(alloc, items, "name")?,
    })
}

/// The keys of a section `file`, or its first fault in order. Takes memory.
pub fn read_plain(
    alloc: Global,
    head: &Head,
    items: &[InnerItem],
) -> Result<PlainKeys, SectionFault>
    ensures { Answers (plain_of head.now items.now) result }
{
    match section_fault(unnamed_fault(head), Section::Plain, items) {
        Some(fault) => Err(fault),
        None => kept(plain_values(alloc, items)),
    }
}

// ---- the kind flash of an image

/// The first fault in order of a kind `flash` in an image, which has neither a name nor keys.
pub fn check_device(head: &Head, items: &[InnerItem]) -> Option<SectionFault>
    ensures { result ≡ section_fault (unnamed_fault head.now) Section.Device items.now }
{
    section_fault(unnamed_fault(head), Section::Device, items)
}

// ---- android-sparse

fn sparse_head_fault(head: &Head, items: &[InnerItem]) -> Option<SectionFault>
    ensures { result ≡ sparse_head_fault head.now (inner_keys items.now) }
{
    if last(items, "image").is_none() {
        return Some(SectionFault::BadValue {
            place: head.word.place,
        });
    }
    unnamed_fault(head)
}

fn block_size_at(items: &[InnerItem]) -> Option<u32>
    ensures { result ≡ block_size_at (inner_keys items.now) }
{
    conf_values::power_between(last_text(items, "block-size")?.as_bytes(), 4096, 1_048_576)
}

fn sparse_values(alloc: Global, items: &[InnerItem]) -> Result<SparseKeys, NoMemory>
    ensures { IfOk result (λ keys. keys ≡ sparse_values (inner_keys items.now)) }
{
    Ok(SparseKeys {
        image: name_at(alloc, items, "image")?,
        block_size: block_size_at(items).unwrap_or(4096),
    })
}

/// The keys of a section `android-sparse`, or its first fault in order, where a lacking `image`
/// stands first, at the section's word. Takes memory.
pub fn read_sparse(
    alloc: Global,
    head: &Head,
    items: &[InnerItem],
) -> Result<SparseKeys, SectionFault>
    ensures keys { Answers (sparse_of head.now items.now) result }
    ensures within { IfOk result IsSparseWithin }
    ensures image { IfOk result (λ keys. IsSome keys.image) }
{
    match section_fault(sparse_head_fault(head, items), Section::Sparse, items) {
        Some(fault) => Err(fault),
        None => kept(sparse_values(alloc, items)),
    }
}

// ---- flash at the top

fn pebsize_at(items: &[SectionItem]) -> Option<u64>
    ensures { result ≡ pebsize_at (top_keys items.now) }
{
    top_size_at(items, "pebsize", 1)
}

fn numpebs_at(items: &[SectionItem]) -> Option<u64>
    ensures { result ≡ numpebs_at (top_keys items.now) }
{
    conf_values::number_between(last_top_text(items, "numpebs")?.as_bytes(), 1, u64::MAX)
}

// Whether both numbers are valid and the device has more than 2^43 bytes.
fn is_too_large(items: &[SectionItem]) -> bool
    ensures { result ≡ is_too_large (top_keys items.now) }
{
    match (pebsize_at(items), numpebs_at(items)) {
        (Some(size), Some(count)) => is_past(size, count),
        _ => false,
    }
}

fn is_past(size: u64, count: u64) -> bool
    ensures { result ≡ is_past size count }
{
    match size.checked_mul(count) {
        Some(bytes) => bytes > MOST_SIZE,
        None => true,
    }
}

fn flash_head_fault(head: &Head, items: &[SectionItem]) -> Option<SectionFault>
    ensures { result ≡ flash_head_fault head.now (top_keys items.now) }
{
    if lacks_key(items) || is_too_large(items) {
        return Some(SectionFault::BadValue {
            place: head.word.place,
        });
    }
    named_fault(head)
}

fn lacks_key(items: &[SectionItem]) -> bool
    ensures { result ≡ lacks_key (top_keys items.now) }
{
    last_top(items, "pebsize").is_none() || last_top(items, "numpebs").is_none()
}

fn flash_values(alloc: Global, head: &Head, items: &[SectionItem]) -> Result<FlashSection, NoMemory>
    ensures { IfOk result (λ keys. keys ≡ flash_values head.now (top_keys items.now)) }
{
    Ok(FlashSection {
        name: Name::of(alloc, name_text(head))?,
        pebsize: pebsize_at(items).unwrap_or(0),
        numpebs: numpebs_at(items).unwrap_or(0),
    })
}

/// The keys of a section `flash` at the top, or its first fault in order. At the section's word
/// stand those of a lacking name or key and of a device of more than 2^43 bytes. Takes memory.
pub fn read_flash(
    alloc: Global,
    head: &Head,
    items: &[SectionItem],
) -> Result<FlashSection, SectionFault>
    ensures keys { Answers (flash_of head.now items.now) result }
    ensures within { IfOk result IsFlashWithin }
{
    match top_section_fault(flash_head_fault(head, items), Section::Flash, items) {
        Some(fault) => Err(fault),
        None => kept(flash_values(alloc, head, items)),
    }
}

// ---- image

/// The fault of the head of an image, which has to have a name.
pub fn image_head_fault(head: &Head) -> Option<SectionFault>
    ensures { result ≡ named_fault head.now }
{
    named_fault(head)
}

/// The fault of one key of an image. Where the image has a kind, the section is `Section::Image`,
/// else `Section::Ready`.
pub fn key_fault(section: Section, setting: &Setting) -> Option<SectionFault>
    ensures { result ≡ setting_fault section 0 setting.now }
{
    setting_fault(section, 0, setting)
}

/// The keys of an image itself, of which none has a fault. Takes memory.
pub fn image_keys(alloc: Global, items: &[SectionItem]) -> Result<ImageKeys, NoMemory>
    ensures keys { IfOk result (λ keys. keys ≡ image_values (top_keys items.now)) }
    ensures within { IfOk result (λ keys. IfSome keys.size (IsSizeFrom 0)) }
{
    Ok(ImageKeys {
        size: top_size_at(items, "size", 0),
        flashtype: top_name_at(alloc, items, "flashtype")?,
    })
}
