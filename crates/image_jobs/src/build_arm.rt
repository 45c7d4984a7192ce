ghost use Rattle.std.specs.Prelude.{◌≡◌, ◌≤◌, [], ◌∷◌, All, IfErr, IfOk, OnOk, length};
ghost use Rattle.outside.specs.Counts.{NoneFell};
ghost use Rattle.answer_lines.specs.Answer.{error_text};
ghost use Rattle.build_job.specs.Files.{StayOutside};
ghost use Rattle.build_job.specs.Said.{sizes_of};
ghost use Rattle.image_graph.specs.IsGraph.{IsGraph};
ghost use Rattle.image_specs.specs.IsSpec.{IsSpec};
ghost use Rattle.image_specs.specs.Specs.{full_names};
ghost use Rattle.job_stages.specs.Printing.{Prints};
ghost use Rattle.image_jobs.specs.Build.{graph_said};
ghost use Rattle.image_jobs.specs.BuildArm.{AllBuilt, BuildAnswers, BuildCause, BuildChanges, HasBuilt, IsComplete, IsShown, IsUnbuilt, build_lines};
ghost use Rattle.job_answers.specs.Printed.{IsRefusal};

use crate::answering::answer_of_build;
use crate::printing::report_built;
use crate::reading::read_graph;
use crate::request::Request;
use answer_lines::Answer;
use base_fields::List;
use build_job::build_images;
use build_laws::{graphs_are_built, no_image_is_left_out};
use conf_sections::Vars;
use image_graph::Graph;
use job_answers::refuse;
use outside::{Files, Printer};
use region_pool::Pool;
use std::alloc::Global;

/// How many bytes pass at a time.
const BUFFER: u32 = 1 << 20;

/// Does a build and prints its lines.
pub fn run_build<F: Files, P: Printer>(
    alloc: Global,
    request: Request,
    vars: &Vars,
    files: &mut F,
    out: &mut P,
) -> Answer
    ensures answers { F.told → BuildAnswers (graph_said vars.now (F.file files.old) request) (F.file files.old) (F.file files.new) result }
    ensures cause { BuildCause (F.counts files.old) (F.counts files.new) (P.faults out.old) (P.faults out.new) result }
    ensures complete { F.told → IsComplete (graph_said vars.now (F.file files.old) request) (F.file files.old) (F.file files.new) (F.counts files.old) (F.counts files.new) (P.faults out.old) (P.faults out.new) result }
    ensures none_fell { NoneFell (F.counts files.old) (F.counts files.new) }
    ensures none_fell_lines { P.faults out.old ≤ P.faults out.new }
    ensures built { F.told → HasBuilt (graph_said vars.now (F.file files.old) request) (F.file files.old) (F.file files.new) result }
    ensures changes { F.told → BuildChanges (graph_said vars.now (F.file files.old) request) (F.file files.old) (F.file files.new) }
    ensures prints { F.told → Prints (build_lines (graph_said vars.now (F.file files.old) request) (F.file files.new) result) (P.lines out.old) (P.lines out.new) (P.faults out.old) (P.faults out.new) }
    ensures refuses { IsRefusal result → Prints (error_text result ∷ []) (P.lines out.old) (P.lines out.new) (P.faults out.old) (P.faults out.new) }
{
    let graph = match read_graph(alloc, files, request, vars) {
        Ok(graph) => graph,
        Err(refusal) => return refuse(refusal, out),
    };
    match build_graph(alloc, files, &graph) {
        Ok(sizes) => report_built(&graph, sizes.as_slice(), out),
        Err(refusal) => refuse(refusal, out),
    }
}

// Builds the images of a graph, and gives the bytes of each one's file in the graph's order.
fn build_graph<F: Files>(alloc: Global, files: &mut F, graph: &Graph) -> Result<List<u64>, Answer>
    requires graph { IsGraph graph.now }
    requires specs { All IsSpec graph.now.specs }
    ensures built { F.told → OnOk result (AllBuilt (F.file files.old) (F.file files.new) graph.now) }
    ensures sizes { F.told → IfOk result (λ sizes. sizes ≡ sizes_of graph.now (F.file files.new)) }
    ensures refused { F.told → IfErr result (IsUnbuilt graph.now (F.file files.old) (F.file files.new)) }
    ensures shown { IfErr result (IsShown (F.counts files.old) (F.counts files.new)) }
    ensures refusal { IfErr result IsRefusal }
    ensures each { IfOk result (λ sizes. length sizes ≡ length graph.now.order) }
    ensures none_fell { NoneFell (F.counts files.old) (F.counts files.new) }
    ensures others { StayOutside (full_names graph.now.specs) (F.file files.old) (F.file files.new) }
{
    let Ok(mut pool) = Pool::new(alloc, 0, 1, BUFFER) else {
        return Err(Answer::NoMemory);
    };
    graphs_are_built();
    no_image_is_left_out();
    match build_images(alloc, files, graph, &mut pool) {
        Ok(sizes) => Ok(sizes),
        Err(fault) => Err(answer_of_build(alloc, graph, fault)),
    }
}
