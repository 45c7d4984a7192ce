//! The layout of an image by what the files of a scenario say.
ghost use Rattle.std.specs.Prelude.{◌≡◌, ◌≤◌, All, IfOk, IsTrue, None, length};
ghost use Rattle.conf_keys.specs.Within.{IsWithin};
ghost use Rattle.conf_keys.specs.declared.conf.Kind.TheVariants.{Flash};
ghost use Rattle.image_specs.specs.IsSpec.{IsSpec};
ghost use Rattle.placement_apart.specs.Apart.{AreLengths};
ghost use Rattle.placement_rules.specs.Bounds.{is_placed};
ghost use Rattle.scenario_layouts.specs.Plans.{IsPlan};

use anyhow::{Result, bail};
use base_fields::List;
use conf_sections::{Conf, ConfFault, Kind, read_conf};
use flash_geometry::{Geometry, place_flash};
use image_graph::{Graph, ImageSpec, Source, graph};
use image_layout::Layout;
use outside::{FileErr, Files};
use placed_layouts::placed_is_layout;
use placement::{PlaceFault, place};
use scenario_words::Setting;
use std::alloc::Global;

/// What placing an image gives.
#[derive(Debug, Drop)]
pub enum Plan {
    /// Its layout.
    Placed(Layout),
    /// Why it can't be placed.
    Refused(PlaceFault),
}

/// The plan of an image of a configuration, by the lengths of the files that it is made of.
pub fn plan_of(setting: &mut Setting, conf: &str, image: &str) -> Result<Plan>
    ensures { IfOk result IsPlan }
{
    let graph = read_graph(setting, conf)?;
    plan_in(setting, &graph, image)
}

// Graphs and configurations are large to let go of, so each is dropped in one place.
fn plan_in(setting: &mut Setting, graph: &Graph, image: &str) -> Result<Plan>
    requires few { length graph.now.specs ≤ 64 }
    requires specs { All IsSpec graph.now.specs }
    ensures { IfOk result IsPlan }
{
    let Some(number) = graph.find(image) else {
        bail!("no such image: {image}");
    };
    match graph.specs.get(number as usize) {
        Some(spec) => placed(setting, spec),
        None => bail!("no such image: {image}"),
    }
}

fn read_graph(setting: &mut Setting, conf: &str) -> Result<Graph>
    ensures few { IfOk result (λ graph. length graph.specs ≤ 64) }
    ensures specs { IfOk result (λ graph. All IsSpec graph.specs) }
{
    let read = read_conf(setting.alloc, &mut setting.files, conf, &setting.vars);
    graph_of(setting.alloc, &read)
}

fn graph_of(alloc: Global, read: &std::result::Result<Conf, ConfFault>) -> Result<Graph>
    requires { IfOk read.now IsWithin }
    ensures few { IfOk result (λ graph. length graph.specs ≤ 64) }
    ensures specs { IfOk result (λ graph. All IsSpec graph.specs) }
{
    let Ok(conf) = read else {
        bail!("no configuration");
    };
    match graph(alloc, conf) {
        Ok(graph) => Ok(graph),
        Err(_) => bail!("no graph"),
    }
}

fn placed(setting: &mut Setting, spec: &ImageSpec) -> Result<Plan>
    requires { IsSpec spec.now }
    ensures { IfOk result IsPlan }
{
    let lens = lengths(setting, spec.sources.as_slice())?;
    match spec.kind {
        Kind::Hd | Kind::Plain => on_disk(setting.alloc, spec, lens.as_slice()),
        Kind::Flash => on_flash(setting.alloc, spec, lens.as_slice()),
        Kind::Sparse | Kind::Ready => bail!("not placed: an image of another kind"),
    }
}

fn on_disk(alloc: Global, spec: &ImageSpec, lens: &[u64]) -> Result<Plan>
    requires spec { IsSpec spec.now }
    requires kind { IsTrue (is_placed spec.now.kind) }
    requires many { length lens.now ≡ length spec.now.sources }
    requires lengths { AreLengths spec.now.sources lens.now }
    ensures { IfOk result IsPlan }
{
    placed_is_layout();
    match place(alloc, spec, lens) {
        Ok(layout) => Ok(Plan::Placed(layout)),
        Err(fault) => Ok(Plan::Refused(fault)),
    }
}

fn on_flash(alloc: Global, spec: &ImageSpec, lens: &[u64]) -> Result<Plan>
    requires spec { IsSpec spec.now }
    requires kind { spec.now.kind ≡ Flash }
    requires lengths { AreLengths spec.now.sources lens.now }
    ensures { IfOk result IsPlan }
{
    let Some(flash) = &spec.flash else {
        bail!("no flash section");
    };
    let geometry = Geometry {
        pebsize: flash.pebsize,
        numpebs: flash.numpebs,
    };
    match place_flash(alloc, spec, &geometry, lens) {
        Ok(layout) => Ok(Plan::Placed(layout)),
        Err(fault) => Ok(Plan::Refused(fault)),
    }
}

/// The length of each source's file, and 0 where it has none.
#[tactic(auto, using(crate::proofs::Lengths::lengths_more))]
fn lengths(setting: &mut Setting, sources: &[Source]) -> Result<List<u64>>
    ensures many { IfOk result (λ lens. length lens ≡ length sources.now) }
    ensures lengths { IfOk result (λ lens. AreLengths sources.now lens) }
{
    let mut lens = List::new(setting.alloc);
    for source in sources {
        lens.push(length_of(setting, source)?)?;
    }
    Ok(lens)
}

fn length_of(setting: &mut Setting, source: &Source) -> Result<u64>
    ensures { IfOk result (λ len. source.now.file ≡ None → len ≡ 0) }
{
    let Some(file) = &source.file else {
        return Ok(0);
    };
    let name = file.text();
    match setting.files.length(name) {
        Ok(len) => Ok(len),
        Err(FileErr::Missing) => bail!("no file {name}"),
        Err(FileErr::Failed) => bail!("the call failed"),
    }
}
