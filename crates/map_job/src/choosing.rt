//! Which image is mapped, and whether the map's file has a name of its own.
ghost use Rattle.std.specs.Prelude.{◌≡◌, ◌<◌, ◌≤◌, IfErr, IfOk, length};
ghost use Rattle.std.specs.List.{list_any};
ghost use Rattle.std.specs.Str.{bytes_eq};
ghost use Rattle.image_graph.specs.Clashes.{ready_name};
ghost use Rattle.image_names.specs.Names.{holds};
ghost use Rattle.map_job.specs.Faults.{IsBehind};
ghost use Rattle.map_job.specs.Said.{chosen_said, is_named};

use crate::MappingFault;
use base_fields::Name;
use image_graph::{Graph, ImageSpec, Source};

/// The number of the built image of that name, where `out` is the name of no text, of no file that is taken ready and of no
/// image's file. Takes no memory.
pub fn choose(texts: &[Name], graph: &Graph, image: &str, out: &str) -> Result<u32, MappingFault>
    requires few { length graph.now.specs ≤ 64 }
    ensures said { result ≡ chosen_said texts.now graph.now.specs image.now out.now }
    ensures behind { IfErr result (IsBehind (chosen_said texts.now graph.now.specs image.now out.now)) }
    ensures within { IfOk result (λ number. number < length graph.now.specs) }
{
    let Some(number) = graph.find(image) else {
        return Err(MappingFault::NoImage);
    };
    if is_named(texts, graph.specs.as_slice(), out) {
        return Err(MappingFault::NameClash);
    }
    Ok(number)
}

#[tactic(auto, using(crate::proofs::Chosen::ready_held, crate::proofs::Chosen::full_held))]
fn is_named(texts: &[Name], specs: &[ImageSpec], out: &str) -> bool
    ensures { result ≡ is_named texts.now specs.now out.now }
{
    is_text(texts, out) || is_ready(specs, out) || is_built(specs, out)
}

fn is_text(texts: &[Name], out: &str) -> bool
    ensures { result ≡ holds texts.now out.now }
{
    texts.iter().any(|text| out == text.text())
}

// Whether a file that is taken ready has that name.
fn is_ready(specs: &[ImageSpec], out: &str) -> bool
    ensures { result ≡ list_any (λ spec. list_any (λ source. holds (ready_name source) out.now) spec.sources) specs.now }
{
    specs
        .iter()
        .any(|spec| is_ready_for(spec.sources.as_slice(), out))
}

fn is_ready_for(sources: &[Source], out: &str) -> bool
    ensures { result ≡ list_any (λ source. holds (ready_name source) out.now) sources.now }
{
    sources.iter().any(|source| is_ready_source(source, out))
}

fn is_ready_source(source: &Source, out: &str) -> bool
    ensures { result ≡ holds (ready_name source.now) out.now }
{
    match (source.child, &source.file) {
        (None, Some(file)) => out == file.text(),
        _ => false,
    }
}

// Whether the file of an image that is built has that name.
fn is_built(specs: &[ImageSpec], out: &str) -> bool
    ensures { result ≡ list_any (λ spec. bytes_eq out.now spec.full) specs.now }
{
    specs.iter().any(|spec| out == spec.full.text())
}
