//! Refusals that come from counts, kinds and flash devices.
ghost use Rattle.std.specs.Prelude.{◌≡◌, ◌≤◌, IfOk, OnOk, length};
ghost use Rattle.image_names.specs.Counts.{first_fault, flash_fault, has_flash, kind_fault, names_of, no_flash, no_kind, past, too_many};
ghost use Rattle.image_names.specs.Stages.{Passes};
ghost use Rattle.image_names.specs.Names.{HoldSame};

use crate::GraphFault;
use crate::images::{counted_parts, only_kind};
use crate::names::Names;
use base_fields::{Name, NoMemory};
use conf_keys::{Conf, FlashSection, ImageSection, Kind};
use std::alloc::Global;

const MOST_IMAGES: usize = 64;

const MOST_PARTS: usize = 256;

fn past(limit: usize, count: usize) -> Result<(), GraphFault>
    ensures passes { Passes (past limit count) result }
    ensures few { OnOk result (count ≤ limit) }
{
    if limit < count {
        return Err(GraphFault::TooMany {
            count: count as u64,
            limit: limit as u64,
        });
    }
    Ok(())
}

/// Refuses more images than are allowed, and then more partitions in one. Takes no memory.
pub fn too_many(conf: &Conf) -> Result<(), GraphFault>
    ensures passes { Passes (too_many conf.now) result }
    ensures few { OnOk result (length conf.now.images ≤ 64) }
{
    past(MOST_IMAGES, conf.images.len())?;
    for image in conf.images.as_slice() {
        past(MOST_PARTS, counted_parts(image).len())?;
    }
    Ok(())
}

fn kind_fault(alloc: Global, image: &ImageSection) -> Result<(), GraphFault>
    ensures { Passes (kind_fault image.now) result }
{
    let count = image.kinds.len();
    if count == 1 {
        return Ok(());
    }
    Err(GraphFault::NoKind {
        image: Name::of(alloc, image.name.text())?,
        count: count as u64,
    })
}

/// Refuses an image that hasn't exactly one section other than `partition`.
pub fn no_kind(alloc: Global, conf: &Conf) -> Result<(), GraphFault>
    ensures { Passes (no_kind conf.now) result }
{
    for image in conf.images.as_slice() {
        kind_fault(alloc, image)?;
    }
    Ok(())
}

// The names of the flash sections, each once.
fn flash_names(alloc: Global, flashes: &[FlashSection]) -> Result<Names, NoMemory>
    ensures { IfOk result (λ names. HoldSame names (names_of flashes.now)) }
{
    let mut names = Names::new(alloc);
    for flash in flashes {
        names.add(alloc, flash.name.text())?;
    }
    Ok(names)
}

fn has_flash(names: &Names, image: &ImageSection) -> bool
    ensures { result ≡ has_flash names.now image.now }
{
    match &image.flashtype {
        Some(name) => names.has(name.text()),
        None => false,
    }
}

fn flash_fault(alloc: Global, names: &Names, image: &ImageSection) -> Result<(), GraphFault>
    ensures { Passes (flash_fault names.now image.now) result }
{
    let is_flash = matches!(only_kind(image), Some(Kind::Flash));
    if !is_flash || has_flash(names, image) {
        return Ok(());
    }
    Err(GraphFault::NoFlash {
        image: Name::of(alloc, image.name.text())?,
    })
}

// Refuses a flash image that names none of these.
fn flash_faults(alloc: Global, names: &Names, images: &[ImageSection]) -> Result<(), GraphFault>
    ensures { Passes (first_fault (flash_fault names.now) images.now) result }
{
    for image in images {
        flash_fault(alloc, names, image)?;
    }
    Ok(())
}

/// Refuses a flash image that names no flash section.
pub fn no_flash(alloc: Global, conf: &Conf) -> Result<(), GraphFault>
    ensures { Passes (no_flash conf.now) result }
{
    let names = flash_names(alloc, conf.flashes.as_slice())?;
    flash_faults(alloc, &names, conf.images.as_slice())?;
    Ok(())
}
