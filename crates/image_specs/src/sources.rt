//! What each image that is built is made of.
ghost use Rattle.std.specs.Prelude.{◌≡◌, ◌≤◌, ◌∷◌, [], All, IfOk, length, map, option_copied, unwrap_or};
ghost use Rattle.conf_keys.specs.Within.{IsWithin};
ghost use Rattle.image_names.specs.Clashes.{section_clash};
ghost use Rattle.image_names.specs.Images.{built_names};
ghost use Rattle.image_names.specs.Stages.{section_fault};
ghost use Rattle.image_specs.specs.Identifiers.{HasIdentifiers};
ghost use Rattle.image_specs.specs.IsSpec.{IsSpec};
ghost use Rattle.image_specs.specs.Specs.{flash_named, flash_of, ready_file, source_named, source_of, sources_of, spec_of, specs_of};

use crate::copies::{copy_flash, copy_image, copy_name};
use crate::{ImageSpec, Source};
use base_fields::{List, Name, NoMemory};
use conf_keys::{Conf, FlashSection, ImageSection, Kind, PartitionSection};
use file_names::full_name;
use image_names::{Names, is_built, only_kind};
use std::alloc::Global;

fn ready_file(alloc: Global, conf: &Conf, name: &str) -> Result<Source, NoMemory>
    ensures { IfOk result (λ source. source ≡ ready_file conf.now name.now) }
{
    Ok(Source {
        file: Some(full_name(alloc, conf.input.text(), name)?),
        child: None,
    })
}

// The image of that name, else a ready file.
fn source_named(alloc: Global, conf: &Conf, names: &Names, name: &str) -> Result<Source, NoMemory>
    requires { length names.now ≤ 64 }
    ensures { IfOk result (λ source. source ≡ source_named conf.now names.now name.now) }
{
    match names.number(name) {
        Some(number) => Ok(Source {
            file: Some(full_name(alloc, conf.output.text(), name)?),
            child: Some(number as u32),
        }),
        None => ready_file(alloc, conf, name),
    }
}

fn source_of(
    alloc: Global,
    conf: &Conf,
    names: &Names,
    name: &Option<Name>,
) -> Result<Source, NoMemory>
    requires { length names.now ≤ 64 }
    ensures { IfOk result (λ source. source ≡ source_of conf.now names.now name.now) }
{
    match name {
        Some(name) => source_named(alloc, conf, names, name.text()),
        None => Ok(Source {
            file: None,
            child: None,
        }),
    }
}

fn part_sources(
    alloc: Global,
    conf: &Conf,
    names: &Names,
    parts: &[PartitionSection],
) -> Result<List<Source>, NoMemory>
    requires { length names.now ≤ 64 }
    ensures { IfOk result (λ sources.
        sources ≡ map (λ part. source_of conf.now names.now part.image) parts.now) }
{
    let mut sources = List::new(alloc);
    for part in parts {
        sources.push(source_of(alloc, conf, names, &part.image)?)?;
    }
    Ok(sources)
}

fn only(alloc: Global, source: Source) -> Result<List<Source>, NoMemory>
    ensures { IfOk result (λ sources. sources ≡ source ∷ []) }
{
    let mut sources = List::new(alloc);
    sources.push(source)?;
    Ok(sources)
}

fn plain_name(image: &ImageSection) -> &str
    ensures { result.now ≡ unwrap_or image.now.plain.name image.now.name }
{
    match &image.plain.name {
        Some(name) => name.text(),
        None => image.name.text(),
    }
}

fn sources_of(
    alloc: Global,
    conf: &Conf,
    names: &Names,
    image: &ImageSection,
    kind: Kind,
) -> Result<List<Source>, NoMemory>
    requires { length names.now ≤ 64 }
    ensures { IfOk result (λ sources.
        sources ≡ sources_of conf.now names.now image.now kind) }
{
    match kind {
        Kind::Hd | Kind::Flash => part_sources(alloc, conf, names, image.parts.as_slice()),
        Kind::Sparse => only(alloc, source_of(alloc, conf, names, &image.sparse.image)?),
        Kind::Plain => only(alloc, ready_file(alloc, conf, plain_name(image))?),
        Kind::Ready => Ok(List::new(alloc)),
    }
}

fn flash_named<'a>(flashes: &'a [FlashSection], name: &str) -> Option<&'a FlashSection>
    ensures { option_copied result ≡ flash_named flashes.now name.now }
{
    flashes.iter().find(|flash| name == flash.name.text())
}

// A copy of the flash section that an image is for.
fn flash_of(
    alloc: Global,
    flashes: &[FlashSection],
    image: &ImageSection,
    kind: Kind,
) -> Result<Option<FlashSection>, NoMemory>
    ensures { IfOk result (λ flash. flash ≡ flash_of flashes.now image.now kind) }
{
    let (Kind::Flash, Some(name)) = (kind, &image.flashtype) else {
        return Ok(None);
    };
    match flash_named(flashes, name.text()) {
        Some(flash) => Ok(Some(copy_flash(alloc, flash)?)),
        None => Ok(None),
    }
}

fn spec_of(
    alloc: Global,
    conf: &Conf,
    names: &Names,
    image: &ImageSection,
) -> Result<ImageSpec, NoMemory>
    requires { length names.now ≤ 64 }
    ensures spec { IfOk result (λ spec. spec ≡ spec_of conf.now names.now image.now) }
    ensures identifiers { IfOk result (λ spec. HasIdentifiers spec.keys) }
{
    let kind = only_kind(image).unwrap_or(Kind::Ready);
    Ok(ImageSpec {
        name: copy_name(alloc, &image.name)?,
        full: full_name(alloc, conf.output.text(), image.name.text())?,
        kind,
        keys: copy_image(alloc, image)?,
        flash: flash_of(alloc, conf.flashes.as_slice(), image, kind)?,
        sources: sources_of(alloc, conf, names, image, kind)?,
    })
}

// The names of the images that are built.
fn built_names(alloc: Global, conf: &Conf) -> Result<Names, NoMemory>
    requires few { length conf.now.images ≤ 64 }
    requires apart { section_clash conf.now ≡ None }
    ensures names { IfOk result (λ names. names ≡ built_names conf.now) }
    ensures few { IfOk result (λ names. length names ≤ 64) }
{
    let mut names = Names::new(alloc);
    for image in conf.images.as_slice() {
        if is_built(image) {
            names.add(alloc, image.name.text())?;
        }
    }
    Ok(names)
}

// What is built of a configuration whose sections have no fault.
fn specs_made(alloc: Global, conf: &Conf, names: &Names) -> Result<List<ImageSpec>, NoMemory>
    requires few { length names.now ≤ 64 }
    requires built { names.now ≡ built_names conf.now }
    ensures specs { IfOk result (λ specs. specs ≡ specs_of conf.now) }
    ensures identifiers { IfOk result (All (λ spec. HasIdentifiers spec.keys)) }
{
    let mut specs = List::new(alloc);
    for image in conf.images.as_slice() {
        if is_built(image) {
            specs.push(spec_of(alloc, conf, names, image)?)?;
        }
    }
    Ok(specs)
}

/// What is built of a configuration whose sections have no fault, in the order of the text.
/// Takes memory.
pub fn specs_of(alloc: Global, conf: &Conf) -> Result<List<ImageSpec>, NoMemory>
    requires checked { section_fault conf.now ≡ None }
    ensures specs { IfOk result (λ specs. specs ≡ specs_of conf.now) }
    ensures few { IfOk result (λ specs. length specs ≤ 64) }

    // Each holds what its placement rests on.
    ensures fit { IsWithin conf.now → IfOk result (All IsSpec) }
{
    let names = built_names(alloc, conf)?;
    Ok(specs_made(alloc, conf, &names)?)
}
