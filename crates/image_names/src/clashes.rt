//! Refusals of two things with one name.
ghost use Rattle.std.specs.Prelude.{◌≡◌, ◌∷◌, ◌++◌, [], OnOk, if◌then◌else◌};
ghost use Rattle.image_names.specs.Clashes.{clash_among, clash_with, flash_clash, full_clash, image_clash, more_fulls, part_clash, section_clash};
ghost use Rattle.image_names.specs.Images.{is_built};
ghost use Rattle.image_names.specs.Stages.{Passes};

use crate::GraphFault;
use crate::images::{counted_parts, is_built};
use crate::names::Names;
use base_fields::Name;
use conf_keys::{Conf, FlashSection, ImageSection};
use file_names::full_name;
use std::alloc::Global;

/// Refuses that name. Takes memory.
pub fn clash(alloc: Global, name: &str) -> Result<(), GraphFault>
    ensures { Passes (Some (GraphFault.NameClash name.now)) result }
{
    Err(GraphFault::NameClash {
        name: Name::of(alloc, name)?,
    })
}

// Adds a name behind the others, or refuses one that is there.
fn add_new(alloc: Global, names: &mut Names, name: &str) -> Result<(), GraphFault>
    ensures passes { Passes (clash_among names.old name.now) result }
    ensures added { OnOk result (names.new ≡ names.old ++ name.now ∷ []) }
{
    if !names.add(alloc, name)? {
        clash(alloc, name)?;
    }
    Ok(())
}

fn flash_clash(alloc: Global, flashes: &[FlashSection]) -> Result<(), GraphFault>
    ensures { Passes (flash_clash flashes.now) result }
{
    let mut names = Names::new(alloc);
    for flash in flashes {
        add_new(alloc, &mut names, flash.name.text())?;
    }
    Ok(())
}

fn part_clash(alloc: Global, image: &ImageSection) -> Result<(), GraphFault>
    ensures { Passes (part_clash image.now) result }
{
    let mut names = Names::new(alloc);
    for part in counted_parts(image) {
        add_new(alloc, &mut names, part.name.text())?;
    }
    Ok(())
}

// Adds the full name of an image that is built.
fn add_full(
    alloc: Global,
    output: &str,
    fulls: &mut Names,
    image: &ImageSection,
) -> Result<(), GraphFault>
    ensures passes { Passes (full_clash fulls.old output.now image.now) result }
    ensures added { OnOk result (fulls.new ≡ more_fulls fulls.old output.now image.now) }
{
    if !is_built(image) {
        return Ok(());
    }
    let full = full_name(alloc, output, image.name.text())?;
    add_new(alloc, fulls, full.text())?;
    Ok(())
}

// Adds the names of an image, or refuses one that has one name with an earlier one.
fn add_image(
    alloc: Global,
    output: &str,
    names: &mut Names,
    fulls: &mut Names,
    image: &ImageSection,
) -> Result<(), GraphFault>
    ensures passes { Passes (clash_with names.old fulls.old output.now image.now) result }
    ensures names { OnOk result (names.new ≡ names.old ++ image.now.name ∷ []) }
    ensures fulls { OnOk result (fulls.new ≡ more_fulls fulls.old output.now image.now) }
{
    add_new(alloc, names, image.name.text())?;
    add_full(alloc, output, fulls, image)?;
    Ok(())
}

fn image_clash(alloc: Global, output: &str, images: &[ImageSection]) -> Result<(), GraphFault>
    ensures { Passes (image_clash output.now images.now) result }
{
    let mut names = Names::new(alloc);
    let mut fulls = Names::new(alloc);
    for image in images {
        add_image(alloc, output, &mut names, &mut fulls, image)?;
    }
    Ok(())
}

/// Refuses two images, two flash sections or two partitions of one image with one name.
pub fn section_clash(alloc: Global, conf: &Conf) -> Result<(), GraphFault>
    ensures { Passes (section_clash conf.now) result }
{
    image_clash(alloc, conf.output.text(), conf.images.as_slice())?;
    flash_clash(alloc, conf.flashes.as_slice())?;
    for image in conf.images.as_slice() {
        part_clash(alloc, image)?;
    }
    Ok(())
}
