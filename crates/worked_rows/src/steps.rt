//! The steps of a scenario.
use crate::run_steps::RunStep;
use crate::sweeps::SweepStep;
use crate::world::World;
use anyhow::{Result, bail};
use scenario_answers::AnswerStep;
use scenario_copies::CopyStep;
use scenario_covers::CoverStep;
use scenario_devices::BenchStep;
use scenario_files::{CallStep, FileStep};
use scenario_journals::JournalStep;
use scenario_layouts::LayoutStep;
use scenario_maps::MapStep;
use scenario_tables::{PoolStep, SlotStep, SparseStep, TableStep, ValueStep};
use scenario_texts::TextStep;
use scenario_words::Arguments;
use std::alloc::Global;

/// A step, by what it acts on.
#[derive(Debug, Drop)]
pub enum Step {
    /// Begins again, with a title.
    New(Vec<String>),
    /// The files, the variables and what is to fail.
    Files(FileStep),
    /// A single call of the files.
    Calls(CallStep),
    /// A command.
    Run(RunStep),
    /// Answers and lines.
    Answers(AnswerStep),
    /// Texts of configurations.
    Texts(TextStep),
    /// Layouts of images.
    Layouts(LayoutStep),
    /// The cover.
    Cover(CoverStep),
    /// Texts of block maps.
    Maps(MapStep),
    /// Sparse files.
    Sparse(SparseStep),
    /// Partition tables.
    Tables(TableStep),
    /// Single entries of boot records.
    Slots(SlotStep),
    /// Sums and other small values.
    Values(ValueStep),
    /// A pool of buffers.
    Pool(PoolStep),
    /// The bench.
    Bench(BenchStep),
    /// The journal on the bench.
    Journal(JournalStep),
    /// The copier on the bench.
    Copies(CopyStep),
    /// Many copies, of which each is stopped or has a call that fails.
    Sweep(SweepStep),
}

impl Step {
    /// The step that the words say.
    pub fn read(alloc: Global, words: &mut Arguments) -> Result<Step> {
        let verb = words.text("a step")?;
        if verb.as_str() == "new" {
            return Ok(Step::New(words.texts("a title")?));
        }
        if let Some(step) = read_run(alloc, &verb, words)? {
            return Ok(step);
        }
        match read_value(alloc, &verb, words)? {
            Some(step) => Ok(step),
            None => bail!("no such step: {verb}"),
        }
    }

    /// Does it, and says what came of it.
    pub fn play(self, world: &mut World) -> Result<String> {
        let alloc = world.setting.alloc;
        match self {
            Step::New(title) => begin(world, &title),
            Step::Files(step) => step.play(&mut world.setting),
            Step::Calls(step) => step.play(&mut world.setting),
            Step::Run(step) => step.play(world),
            Step::Answers(step) => step.play(&mut world.setting),
            Step::Texts(step) => step.play(&mut world.setting),
            Step::Layouts(step) => step.play(&mut world.setting),
            Step::Cover(step) => step.play(alloc, &mut world.cover),
            Step::Maps(step) => step.play(&mut world.setting),
            Step::Sparse(step) => step.play(&mut world.setting),
            Step::Tables(step) => step.play(&mut world.setting),
            Step::Slots(step) => step.play(&mut world.setting),
            Step::Values(step) => step.play(&mut world.setting),
            Step::Pool(step) => step.play(alloc),
            Step::Bench(step) => step.play(&world.setting, &mut world.devices),
            Step::Journal(step) => step.play(alloc, &mut world.devices, &mut world.job),
            Step::Copies(step) => step.play(&mut world.setting, &mut world.devices),
            Step::Sweep(step) => step.play(&mut world.setting),
        }
    }
}

/// A step on files, commands and texts.
fn read_run(alloc: Global, verb: &str, words: &mut Arguments) -> Result<Option<Step>> {
    if let Some(step) = FileStep::read(alloc, verb, words)? {
        return Ok(Some(Step::Files(step)));
    }
    if let Some(step) = CallStep::read(alloc, verb, words)? {
        return Ok(Some(Step::Calls(step)));
    }
    if let Some(step) = RunStep::read(verb, words)? {
        return Ok(Some(Step::Run(step)));
    }
    if let Some(step) = AnswerStep::read(alloc, verb, words)? {
        return Ok(Some(Step::Answers(step)));
    }
    if let Some(step) = TextStep::read(alloc, verb, words)? {
        return Ok(Some(Step::Texts(step)));
    }
    if let Some(step) = LayoutStep::read(verb, words)? {
        return Ok(Some(Step::Layouts(step)));
    }
    Ok(None)
}

/// A step on another object or value.
fn read_value(alloc: Global, verb: &str, words: &mut Arguments) -> Result<Option<Step>> {
    if let Some(step) = CoverStep::read(alloc, verb, words)? {
        return Ok(Some(Step::Cover(step)));
    }
    if let Some(step) = MapStep::read(verb, words)? {
        return Ok(Some(Step::Maps(step)));
    }
    if let Some(step) = SparseStep::read(verb, words)? {
        return Ok(Some(Step::Sparse(step)));
    }
    if let Some(step) = TableStep::read(alloc, verb, words)? {
        return Ok(Some(Step::Tables(step)));
    }
    if let Some(step) = SlotStep::read(alloc, verb, words)? {
        return Ok(Some(Step::Slots(step)));
    }
    if let Some(step) = ValueStep::read(alloc, verb, words)? {
        return Ok(Some(Step::Values(step)));
    }
    if let Some(step) = PoolStep::read(verb, words)? {
        return Ok(Some(Step::Pool(step)));
    }
    if let Some(step) = BenchStep::read(alloc, verb, words)? {
        return Ok(Some(Step::Bench(step)));
    }
    if let Some(step) = JournalStep::read(alloc, verb, words)? {
        return Ok(Some(Step::Journal(step)));
    }
    if let Some(step) = CopyStep::read(alloc, verb, words)? {
        return Ok(Some(Step::Copies(step)));
    }
    if let Some(step) = SweepStep::read(verb, words)? {
        return Ok(Some(Step::Sweep(step)));
    }
    Ok(None)
}

fn begin(world: &mut World, title: &[String]) -> Result<String> {
    let alloc = world.setting.alloc;
    *world = World::new(alloc);
    let mut line = String::from_str(alloc, "new")?;
    for word in title {
        line.push_str(" ")?;
        line.push_str(word)?;
    }
    Ok(line)
}
