//! What a request builds.
ghost use Rattle.std.specs.Prelude.{◌≡◌, All, IfErr, IfOk};
ghost use Rattle.base_fields.specs.Results.{refused_by};
ghost use Rattle.outside.specs.Counts.{Counts, NoneFell};
ghost use Rattle.conf_keys.specs.Within.{IsWithin};
ghost use Rattle.image_graph.specs.Graph.{graph_of};
ghost use Rattle.image_graph.specs.IsGraph.{IsGraph};
ghost use Rattle.image_specs.specs.IsSpec.{IsSpec};
ghost use Rattle.job_stages.specs.Stages.{Gives};
ghost use Rattle.job_answers.specs.Printed.{is_counted};
ghost use Rattle.image_jobs.specs.Answering.{graph_answer};
ghost use Rattle.image_jobs.specs.Build.{conf_said, graph_said, with_paths};
ghost use Rattle.image_jobs.specs.BuildArm.{IsShown};
ghost use Rattle.job_answers.specs.Printed.{IsRefusal};

use crate::answering::{answer_of_conf, answer_of_graph};
use crate::request::Request;
use answer_lines::Answer;
use conf_sections::{Conf, Vars, read_conf};
use image_graph::{Graph, graph};
use outside::Files;
use std::alloc::Global;

// The paths of the words go before those of the configuration.
fn with_paths(request: Request, conf: Conf) -> Conf
    ensures { result ≡ with_paths request conf }
{
    let Request {
        conf: _,
        input,
        output,
    } = request;
    let Conf {
        input: own_input,
        output: own_output,
        flashes,
        images,
        texts,
    } = conf;
    Conf {
        input: input.unwrap_or(own_input),
        output: output.unwrap_or(own_output),
        flashes,
        images,
        texts,
    }
}

/// What the texts of a request's configuration say. Takes memory.
pub fn read_request<F: Files>(
    alloc: Global,
    files: &mut F,
    request: Request,
    vars: &Vars,
) -> Result<Conf, Answer>
    ensures gives { F.told → Gives is_counted (conf_said vars.now (F.file files.old) request) (λ conf. conf) (λ refusal. refusal) result }
    ensures shown { IfErr result (IsShown (F.counts files.old) (F.counts files.new)) }
    ensures refusal { IfErr result IsRefusal }
    ensures within { IfOk result IsWithin }
    ensures same_files { F.file files.new ≡ F.file files.old }
    ensures none_fell { NoneFell (F.counts files.old) (F.counts files.new) }
{
    match read_conf(alloc, files, request.conf.text(), vars) {
        Ok(conf) => Ok(with_paths(request, conf)),
        Err(fault) => Err(answer_of_conf(fault)),
    }
}

/// The images that a configuration says, and their order. Takes memory.
pub fn graph_in(alloc: Global, conf: &Conf) -> Result<Graph, Answer>
    requires { IsWithin conf.now }
    ensures gives { Gives is_counted (refused_by graph_answer (graph_of conf.now)) (λ graph. graph) (λ refusal. refusal) result }
    ensures shown { (before now : Counts) → IfErr result (IsShown before now) }
    ensures refusal { IfErr result IsRefusal }
    ensures sound { IfOk result IsGraph }
    ensures specs { IfOk result (λ graph. All IsSpec graph.specs) }
{
    match graph(alloc, conf) {
        Ok(graph) => Ok(graph),
        Err(fault) => Err(answer_of_graph(fault)),
    }
}

/// The images that the request's configuration says, and their order. Takes memory.
pub fn read_graph<F: Files>(
    alloc: Global,
    files: &mut F,
    request: Request,
    vars: &Vars,
) -> Result<Graph, Answer>
    ensures gives { F.told → Gives is_counted (graph_said vars.now (F.file files.old) request) (λ graph. graph) (λ refusal. refusal) result }
    ensures shown { IfErr result (IsShown (F.counts files.old) (F.counts files.new)) }
    ensures refusal { IfErr result IsRefusal }
    ensures sound { IfOk result IsGraph }
    ensures specs { IfOk result (λ graph. All IsSpec graph.specs) }
    ensures same_files { F.file files.new ≡ F.file files.old }
    ensures none_fell { NoneFell (F.counts files.old) (F.counts files.new) }
{
    let conf = match read_request(alloc, files, request, vars) {
        Ok(conf) => conf,
        Err(refusal) => return Err(refusal),
    };
    graph_in(alloc, &conf)
}
