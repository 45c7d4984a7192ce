//! The answer of a fault.
ghost use Rattle.std.specs.Prelude.{◌≡◌};
ghost use Rattle.job_answers.specs.Printed.{IsCopied};
ghost use Rattle.image_jobs.specs.Answering.{build_answer, compose_answer, conf_answer, file_at, full_at, graph_answer};
ghost use Rattle.image_jobs.specs.Answering.{length_answer, place_answer, plan_answer, source_file};
ghost use Rattle.job_answers.specs.Printed.{IsRefusal};

use answer_lines::Answer;
use base_fields::{Name, NoMemory};
use build_job::BuildFault;
use conf_sections::ConfFault;
use image_graph::{Graph, GraphFault, ImageSpec};
use image_plan::{PlaceFault, PlanFault};
use outside::{ComposeFault, FileErr};
use std::alloc::Global;

// ---- the configuration and its graph

/// The answer of a fault of the configuration.
pub fn answer_of_conf(fault: ConfFault) -> Answer
    ensures answer { result ≡ conf_answer fault }
    ensures refusal { IsRefusal result }
{
    match fault {
        ConfFault::BadText { name, place } => Answer::BadText { name, place },
        ConfFault::UnknownKey { name, place } => Answer::UnknownKey { name, place },
        ConfFault::BadValue { name, place } => Answer::BadValue { name, place },
        ConfFault::Unset { var } => Answer::Unset { var },
        ConfFault::DeepInclude { name } => Answer::DeepInclude { name },
        ConfFault::TooLong { total } => Answer::TooLong { total },
        ConfFault::Missing { name } => Answer::Missing { name },
        ConfFault::SourceShort { name, at } => Answer::SourceShort { name, at },
        ConfFault::FileFault => Answer::FileFault,
        ConfFault::NoMemory => Answer::NoMemory,
    }
}

/// The answer of a fault of its graph.
pub fn answer_of_graph(fault: GraphFault) -> Answer
    ensures answer { result ≡ graph_answer fault }
    ensures refusal { IsRefusal result }
{
    match fault {
        GraphFault::TooMany { count, limit } => Answer::TooMany { count, limit },
        GraphFault::NoKind { image, count } => Answer::NoKind { image, count },
        GraphFault::NoFlash { image } => Answer::NoFlash { image },
        GraphFault::NameClash { name } => Answer::NameClash { name },
        GraphFault::Cycle { name } => Answer::Cycle { name },
        GraphFault::NoMemory => Answer::NoMemory,
    }
}

// ---- the images

/// The full name of the image of that number; empty where there is none.
pub fn full_at<'a>(graph: &'a Graph, image: u32) -> &'a str
    ensures { result.now ≡ full_at graph.now image }
{
    match graph.specs.get(image as usize) {
        Some(spec) => spec.full.text(),
        None => "",
    }
}

// The file of the image's source of that number; empty where there is none.
fn source_file<'a>(spec: &'a ImageSpec, source: usize) -> &'a str
    ensures { result.now ≡ source_file source spec.now }
{
    match spec.sources.get(source) {
        Some(source) => match &source.file {
            Some(name) => name.text(),
            None => "",
        },
        None => "",
    }
}

fn file_at<'a>(graph: &'a Graph, image: u32, source: usize) -> &'a str
    ensures { result.now ≡ file_at graph.now image source }
{
    match graph.specs.get(image as usize) {
        Some(spec) => source_file(spec, source),
        None => "",
    }
}

fn answer_of_place(fault: PlaceFault) -> Answer
    ensures answer { result ≡ place_answer fault }
    ensures refusal { IsRefusal result }
{
    match fault {
        PlaceFault::TooManyEntries { count } => Answer::TooManyEntries { count },
        PlaceFault::Misaligned { part, value, align } => Answer::Misaligned { part, value, align },
        PlaceFault::BadHoles { part, index } => Answer::BadHoles { part, index },
        PlaceFault::BadAutoresize { part, room, least } => Answer::BadAutoresize {
            part,
            room,
            least,
        },
        PlaceFault::FileTooLarge { part, has, limit } => Answer::FileTooLarge { part, has, limit },
        PlaceFault::NoSize { part } => Answer::NoSize { part },
        PlaceFault::TooFar {
            part,
            number,
            limit,
        } => Answer::TooFar {
            part,
            number,
            limit,
        },
        PlaceFault::Overlap { a, b } => Answer::Overlap { a, b },
        PlaceFault::ImageTooSmall { has, needs } => Answer::ImageTooSmall { has, needs },
        PlaceFault::NotOnBlock {
            part,
            value,
            pebsize,
        } => Answer::NotOnBlock {
            part,
            value,
            pebsize,
        },
        PlaceFault::PastFlash { part, end, limit } => Answer::PastFlash { part, end, limit },
        PlaceFault::NoMemory => Answer::NoMemory,
    }
}

/// That a file isn't there. Takes the memory of its name.
pub fn missing(alloc: Global, name: &str) -> Answer
    ensures answer { IsCopied (Answer.Missing name.now) result }
    ensures refusal { IsRefusal result }
{
    match Name::of(alloc, name) {
        Ok(name) => Answer::Missing { name },
        Err(NoMemory) => Answer::NoMemory,
    }
}

/// That a file ends at or before the byte at `at`, which is needed. Takes the memory of its name.
pub fn short(alloc: Global, name: &str, at: u64) -> Answer
    ensures answer { IsCopied (Answer.SourceShort name.now at) result }
    ensures refusal { IsRefusal result }
{
    match Name::of(alloc, name) {
        Ok(name) => Answer::SourceShort { name, at },
        Err(NoMemory) => Answer::NoMemory,
    }
}

/// The answer of a fault of the plan of the image of that number. Takes the memory of a name.
pub fn answer_of_plan(alloc: Global, graph: &Graph, image: u32, fault: PlanFault) -> Answer
    ensures answer { IsCopied (plan_answer graph.now image fault) result }
    ensures refusal { IsRefusal result }
{
    match fault {
        PlanFault::Missing { source } => missing(alloc, file_at(graph, image, source)),
        PlanFault::FileFault => Answer::FileFault,
        PlanFault::Place(fault) => answer_of_place(fault),
    }
}

fn answer_of_compose(alloc: Global, graph: &Graph, image: u32, fault: ComposeFault) -> Answer
    ensures answer { IsCopied (compose_answer graph.now image fault) result }
    ensures refusal { IsRefusal result }
{
    match fault {
        ComposeFault::Missing { part } => missing(alloc, file_at(graph, image, part as usize)),
        ComposeFault::FileFault => Answer::FileFault,
        ComposeFault::SourceShort { part, at } => short(
            alloc,
            file_at(graph, image, part as usize),
            at,
        ),
        ComposeFault::NoMemory => Answer::NoMemory,
    }
}

/// The answer where the length of that image's own file isn't given. Takes the memory of its name.
pub fn answer_of_length(alloc: Global, graph: &Graph, image: u32, fault: FileErr) -> Answer
    ensures answer { IsCopied (length_answer graph.now image fault) result }
    ensures refusal { IsRefusal result }
{
    match fault {
        FileErr::Missing => missing(alloc, full_at(graph, image)),
        FileErr::Failed => Answer::FileFault,
    }
}

/// The answer of a fault of the building. Takes the memory of a name.
pub fn answer_of_build(alloc: Global, graph: &Graph, fault: BuildFault) -> Answer
    ensures answer { IsCopied (build_answer graph.now fault) result }
    ensures refusal { IsRefusal result }
{
    match fault {
        BuildFault::Plan { image, fault } => answer_of_plan(alloc, graph, image, fault),
        BuildFault::Compose { image, fault } => answer_of_compose(alloc, graph, image, fault),
        BuildFault::Measure { image, fault } => answer_of_length(alloc, graph, image, fault),
        BuildFault::NoMemory => Answer::NoMemory,
    }
}
