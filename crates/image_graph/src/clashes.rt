//! Refusals of an image whose file is one that is read.
ghost use Rattle.std.specs.Prelude.{◌≡◌, ◌++◌, OnOk, IfOk};
ghost use Rattle.std.specs.List.{flat_map};
ghost use Rattle.image_names.specs.Counts.{first_fault};
ghost use Rattle.image_names.specs.Names.{HoldSame};
ghost use Rattle.image_names.specs.Stages.{Passes};
ghost use Rattle.image_graph.specs.Clashes.{file_clash, file_fault, ready_name, taken};

use base_fields::{Name, NoMemory};
use image_names::{GraphFault, Names, clash};
use image_specs::{ImageSpec, Source};
use std::alloc::Global;

// Adds the file of a source, where it is taken ready.
fn add_ready(alloc: Global, names: &mut Names, source: &Source) -> Result<(), NoMemory>
    ensures { OnOk result (HoldSame names.new (names.old ++ ready_name source.now)) }
{
    if let (None, Some(file)) = (source.child, &source.file) {
        names.add(alloc, file.text())?;
    }
    Ok(())
}

fn add_sources(alloc: Global, names: &mut Names, sources: &[Source]) -> Result<(), NoMemory>
    ensures { OnOk result (HoldSame names.new (names.old ++ flat_map ready_name sources.now)) }
{
    for source in sources {
        add_ready(alloc, names, source)?;
    }
    Ok(())
}

// The files that are taken ready, each once.
fn taken(alloc: Global, specs: &[ImageSpec]) -> Result<Names, NoMemory>
    ensures { IfOk result (λ names. HoldSame names (taken specs.now)) }
{
    let mut names = Names::new(alloc);
    for spec in specs {
        add_sources(alloc, &mut names, spec.sources.as_slice())?;
    }
    Ok(names)
}

fn text_names(alloc: Global, texts: &[Name]) -> Result<Names, NoMemory>
    ensures { IfOk result (λ names. HoldSame names texts.now) }
{
    let mut names = Names::new(alloc);
    for text in texts {
        names.add(alloc, text.text())?;
    }
    Ok(names)
}

fn file_fault(alloc: Global, names: &Names, spec: &ImageSpec) -> Result<(), GraphFault>
    ensures { Passes (file_fault names.now spec.now) result }
{
    if names.has(spec.full.text()) {
        clash(alloc, spec.full.text())?;
    }
    Ok(())
}

// Refuses an image whose file is one of these.
fn file_among(alloc: Global, names: &Names, specs: &[ImageSpec]) -> Result<(), GraphFault>
    ensures { Passes (first_fault (file_fault names.now) specs.now) result }
{
    for spec in specs {
        file_fault(alloc, names, spec)?;
    }
    Ok(())
}

/// Refuses an image whose file is one that is taken ready, and then one whose file is a text.
pub fn file_clash(alloc: Global, texts: &[Name], specs: &[ImageSpec]) -> Result<(), GraphFault>
    ensures { Passes (file_clash texts.now specs.now) result }
{
    let files = taken(alloc, specs)?;
    file_among(alloc, &files, specs)?;
    let texts = text_names(alloc, texts)?;
    file_among(alloc, &texts, specs)?;
    Ok(())
}
