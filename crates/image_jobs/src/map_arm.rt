//! `map`: the block map of an image that is built.
ghost use Rattle.std.specs.Prelude.{◌≡◌, ◌≤◌, [], ◌∷◌, All, IfErr, OnErr, OnOk};
ghost use Rattle.base_fields.specs.Numbers.{IsPowerBetween};
ghost use Rattle.outside.specs.Counts.{NoneFell, Rose};
ghost use Rattle.outside.specs.Files.{OthersStay};
ghost use Rattle.outside.specs.Printer.{added};
ghost use Rattle.answer_lines.specs.Answer.{error_text};
ghost use Rattle.answer_lines.specs.Lines.{mapped_text};
ghost use Rattle.answer_lines.specs.declared.answer.Report.TheVariants as report;
ghost use Rattle.conf_keys.specs.Within.{IsWithin};
ghost use Rattle.image_graph.specs.IsGraph.{IsGraph};
ghost use Rattle.image_specs.specs.IsSpec.{IsSpec};
ghost use Rattle.job_stages.specs.Printing.{Prints};
ghost use Rattle.job_answers.specs.Printed.{IsCopied};
ghost use Rattle.image_jobs.specs.MapArm.{HasMapped, IsMapShown, MapAnswers, MapCause, MapCompletes, Maps, digest_answer};
ghost use Rattle.image_jobs.specs.MapArm.{graph_wanted, image_wanted, map_wanted, mapping_answer};
ghost use Rattle.job_answers.specs.Printed.{IsRefusal, Reports, line_of};

use crate::answering::{answer_of_length, answer_of_plan, full_at, missing, short};
use crate::reading::{graph_in, read_request};
use crate::request::MapRequest;
use answer_lines::{Answer, LINE_ROOM, Report, mapped_line};
use base_fields::Name;
use conf_sections::{Conf, Vars};
use image_graph::Graph;
use job_answers::{refuse, reported};
use map_job::{Mapped, MappingFault, map_image};
use outside::{Files, PrintErr, Printer};
use range_digest::DigestFault;
use std::alloc::Global;

/// Writes a map, and prints its line.
pub fn run_map<F: Files, P: Printer>(
    alloc: Global,
    mapping: MapRequest,
    vars: &Vars,
    files: &mut F,
    out: &mut P,
) -> Answer
    requires block { IsPowerBetween 512 65536 mapping.block }
    ensures answers { F.told → MapAnswers (map_wanted vars.now (F.file files.old) mapping) result }
    ensures cause { MapCause (F.counts files.old) (F.counts files.new) (P.faults out.old) (P.faults out.new) result }
    ensures complete { F.told → MapCompletes (map_wanted vars.now (F.file files.old) mapping) (F.counts files.old) (F.counts files.new) (P.faults out.old) (P.faults out.new) result }
    ensures none_fell { NoneFell (F.counts files.old) (F.counts files.new) }
    ensures none_fell_lines { P.faults out.old ≤ P.faults out.new }
    ensures made { F.told → HasMapped (map_wanted vars.now (F.file files.old) mapping) mapping (F.file files.new) result }
    ensures others { OthersStay mapping.out (F.file files.old) (F.file files.new) }
    ensures prints { Prints (line_of result) (P.lines out.old) (P.lines out.new) (P.faults out.old) (P.faults out.new) }
    ensures refuses { IsRefusal result → Prints (error_text result ∷ []) (P.lines out.old) (P.lines out.new) (P.faults out.old) (P.faults out.new) }
{
    match map_requested(alloc, mapping, vars, files) {
        Ok(mapped) => report_mapped(mapped, out),
        Err(refusal) => refuse(refusal, out),
    }
}

// Prints the line of a map that is written, and answers so.
fn report_mapped<P: Printer>(mapped: Mapped, out: &mut P) -> Answer
    ensures answer { Reports (report.Mapped mapped.ranges mapped.blocks) (P.faults out.old) (P.faults out.new) result }
    ensures prints { Prints (line_of result) (P.lines out.old) (P.lines out.new) (P.faults out.old) (P.faults out.new) }
    ensures none_fell { P.faults out.old ≤ P.faults out.new }
{
    let printed = print_mapped(mapped, out);
    reported(
        printed,
        Report::Mapped {
            ranges: mapped.ranges,
            blocks: mapped.blocks,
        },
    )
}

fn print_mapped<P: Printer>(mapped: Mapped, out: &mut P) -> Result<(), PrintErr>
    ensures printed { OnOk result (P.lines out.new ≡ added (P.lines out.old) (mapped_text mapped.ranges mapped.blocks)) }
    ensures ok { OnOk result (P.faults out.new ≡ P.faults out.old) }
    ensures failed { OnErr result (Rose (P.faults out.old) (P.faults out.new)) }
    ensures err { OnErr result (P.lines out.new ≡ P.lines out.old) }
    ensures none_fell { P.faults out.old ≤ P.faults out.new }
{
    let mut room = [0; LINE_ROOM];
    let length = mapped_line(mapped.ranges, mapped.blocks, &mut room);
    out.line(&room[..length])?;
    Ok(())
}

// The map of a configuration's image.
fn map_requested<F: Files>(
    alloc: Global,
    mapping: MapRequest,
    vars: &Vars,
    files: &mut F,
) -> Result<Mapped, Answer>
    requires block { IsPowerBetween 512 65536 mapping.block }
    ensures maps { F.told → Maps (map_wanted vars.now (F.file files.old) mapping) mapping.block mapping.out (F.file files.new) result }
    ensures shown { IfErr result (IsMapShown (F.counts files.old) (F.counts files.new)) }
    ensures refusal { IfErr result IsRefusal }
    ensures none_fell { NoneFell (F.counts files.old) (F.counts files.new) }
    ensures others { OthersStay mapping.out (F.file files.old) (F.file files.new) }
{
    let MapRequest {
        request,
        image,
        out,
        block,
    } = mapping;
    let conf = match read_request(alloc, files, request, vars) {
        Ok(conf) => conf,
        Err(refusal) => return Err(refusal),
    };
    map_conf(alloc, files, &conf, image, out, block)
}

// The same, where it is known what the texts say.
fn map_conf<F: Files>(
    alloc: Global,
    files: &mut F,
    conf: &Conf,
    image: Name,
    out: Name,
    block: u32,
) -> Result<Mapped, Answer>
    requires within { IsWithin conf.now }
    requires block { IsPowerBetween 512 65536 block }
    ensures maps { F.told → Maps (graph_wanted (F.file files.old) image out conf.now) block out (F.file files.new) result }
    ensures shown { IfErr result (IsMapShown (F.counts files.old) (F.counts files.new)) }
    ensures refusal { IfErr result IsRefusal }
    ensures none_fell { NoneFell (F.counts files.old) (F.counts files.new) }
    ensures others { OthersStay out (F.file files.old) (F.file files.new) }
{
    let graph = match graph_in(alloc, conf) {
        Ok(graph) => graph,
        Err(refusal) => return Err(refusal),
    };
    map_graph(
        alloc,
        files,
        conf.texts.as_slice(),
        &graph,
        image,
        out,
        block,
    )
}

// The same of a graph.
fn map_graph<F: Files>(
    alloc: Global,
    files: &mut F,
    texts: &[Name],
    graph: &Graph,
    image: Name,
    out: Name,
    block: u32,
) -> Result<Mapped, Answer>
    requires graph { IsGraph graph.now }
    requires specs { All IsSpec graph.now.specs }
    requires block { IsPowerBetween 512 65536 block }
    ensures maps { F.told → Maps (image_wanted (F.file files.old) image out texts.now graph.now) block out (F.file files.new) result }
    ensures shown { IfErr result (IsMapShown (F.counts files.old) (F.counts files.new)) }
    ensures refusal { IfErr result IsRefusal }
    ensures none_fell { NoneFell (F.counts files.old) (F.counts files.new) }
    ensures others { OthersStay out (F.file files.old) (F.file files.new) }
{
    match map_image(alloc, files, texts, graph, image.text(), out.text(), block) {
        Ok(mapped) => Ok(mapped),
        Err(fault) => Err(answer_of_mapping(alloc, graph, image, out, fault)),
    }
}

fn answer_of_mapping(
    alloc: Global,
    graph: &Graph,
    image: Name,
    out: Name,
    fault: MappingFault,
) -> Answer
    ensures answer { IsCopied (mapping_answer graph.now image out fault) result }
    ensures refusal { IsRefusal result }
{
    match fault {
        MappingFault::NoImage => Answer::NoImage { name: image },
        MappingFault::NameClash => Answer::NameClash { name: out },
        MappingFault::Plan { image, fault } => answer_of_plan(alloc, graph, image, fault),
        MappingFault::Measure { image, fault } => answer_of_length(alloc, graph, image, fault),
        MappingFault::ImageStale { has, needs } => Answer::ImageStale { has, needs },
        MappingFault::Digest { image, fault } => answer_of_digest(alloc, graph, image, fault),
        MappingFault::FileFault => Answer::FileFault,
        MappingFault::NoMemory => Answer::NoMemory,
    }
}

fn answer_of_digest(alloc: Global, graph: &Graph, image: u32, fault: DigestFault) -> Answer
    ensures answer { IsCopied (digest_answer graph.now image fault) result }
    ensures refusal { IsRefusal result }
{
    match fault {
        DigestFault::Missing => missing(alloc, full_at(graph, image)),
        DigestFault::SourceShort { at } => short(alloc, full_at(graph, image), at),
        DigestFault::FileFault => Answer::FileFault,
    }
}
