//! A copier is opened, does what a scenario asks for, and is closed.
ghost use Rattle.std.specs.Prelude.{◌≡◌};
ghost use Rattle.bench.specs.declared.Dev.{Dev};
ghost use Rattle.bench.specs.Meter.{IsAttached, SameNames};
ghost use Rattle.journal_format.specs.Journals.{IsWindow};
ghost use Rattle.copier_course.specs.Courses.{IsCopyJob};
ghost use Rattle.scenario_copies.specs.Ready.{IsReady};

use crate::acts::Act;
use crate::lines::{refusal, show_need, show_step};
use crate::putting::put;
use anyhow::Result;
use bench::Bench;
use copier::{Copier, CopyJob, Need, Step};
use outside::Files;
use region_pool::Pool;
use std::alloc::Global;

/// Opens a copier for the job, does these acts with it and closes it. Says what the opening answered, and behind two
/// blanks on lines of their own what came of each act.
pub fn run<F: Files, B: Bench>(
    alloc: Global,
    files: &mut F,
    bench: &mut B,
    job: &CopyJob,
    acts: &[Act],
) -> Result<String>
    requires target { IsAttached (B.meter bench.old) Dev.Target }
    requires journal { IsAttached (B.meter bench.old) Dev.Journal }
    requires job { IsCopyJob job.now }
    requires window { IsWindow job.now.window }
    ensures { SameNames (B.meter bench.old) (B.meter bench.new) }
{
    let mut pool = Pool::new(alloc, 0, 1, job.id.unit)?;
    match Copier::open(alloc, bench, job, &mut pool) {
        Ok(mut copier) => {
            let shown = act_all(alloc, files, bench, &mut pool, &mut copier, job, acts);
            copier.close(&mut pool);
            shown
        }
        Err(fault) => refusal(alloc, &job.source, fault),
    }
}

fn act_all<F: Files, B: Bench>(
    alloc: Global,
    files: &mut F,
    bench: &mut B,
    pool: &mut Pool,
    copier: &mut Copier<'_>,
    job: &CopyJob,
    acts: &[Act],
) -> Result<String>
    requires ready { IsReady B.told (B.meter bench.old) (B.disk bench.old) job.now copier.old pool.old }
    requires job { IsCopyJob job.now }
    ensures ready { IsReady B.told (B.meter bench.new) (B.disk bench.new) job.now copier.new pool.new }
    ensures same_names { SameNames (B.meter bench.old) (B.meter bench.new) }
{
    let mut shown = String::from_str(alloc, "opened")?;
    for act in acts {
        let line = do_act(alloc, files, bench, pool, copier, job, *act)?;
        shown.push_str("\n  ")?;
        shown.push_str(&line)?;
    }
    Ok(shown)
}

fn do_act<F: Files, B: Bench>(
    alloc: Global,
    files: &mut F,
    bench: &mut B,
    pool: &mut Pool,
    copier: &mut Copier<'_>,
    job: &CopyJob,
    act: Act,
) -> Result<String>
    requires ready { IsReady B.told (B.meter bench.old) (B.disk bench.old) job.now copier.old pool.old }
    requires job { IsCopyJob job.now }
    ensures ready { IsReady B.told (B.meter bench.new) (B.disk bench.new) job.now copier.new pool.new }
    ensures same_names { SameNames (B.meter bench.old) (B.meter bench.new) }
{
    match act {
        Act::Step => show_step(alloc, &job.source, copier.step(files, bench, pool)),
        Act::Run => run_on(alloc, files, bench, pool, copier, job),
        Act::Need => show_need(alloc, copier.need()),
        Act::Put => put(alloc, files, bench, copier, job, None),
        Act::Fill { byte } => put(alloc, files, bench, copier, job, Some(byte)),
        Act::Keep => keep(alloc, bench, pool, copier, job),
    }
}

/// Steps up to the last one or to the first refusal: each passes a unit or a range.
fn run_on<F: Files, B: Bench>(
    alloc: Global,
    files: &mut F,
    bench: &mut B,
    pool: &mut Pool,
    copier: &mut Copier<'_>,
    job: &CopyJob,
) -> Result<String>
    requires ready { IsReady B.told (B.meter bench.old) (B.disk bench.old) job.now copier.old pool.old }
    ensures ready { IsReady B.told (B.meter bench.new) (B.disk bench.new) job.now copier.new pool.new }
    ensures same_names { SameNames (B.meter bench.old) (B.meter bench.new) }
{
    let most = job.id.units.saturating_add(job.id.ranges);
    let mut shown = String::new(alloc);
    for _ in 0..most {
        let answer = copier.step(files, bench, pool);
        shown.push_str(&show_step(alloc, &job.source, answer)?)?;
        match answer {
            Ok(Step::Done) => return Ok(shown),
            Ok(_) => shown.push_str("\n  ")?,
            Err(_) => return Ok(shown),
        }
    }
    let answer = copier.step(files, bench, pool);
    shown.push_str(&show_step(alloc, &job.source, answer)?)?;
    Ok(shown)
}

/// Does what is next where that is no unit to be written.
fn keep<B: Bench>(
    alloc: Global,
    bench: &mut B,
    pool: &mut Pool,
    copier: &mut Copier<'_>,
    job: &CopyJob,
) -> Result<String>
    requires ready { IsReady B.told (B.meter bench.old) (B.disk bench.old) job.now copier.old pool.old }
    ensures ready { IsReady B.told (B.meter bench.new) (B.disk bench.new) job.now copier.new pool.new }
    ensures same_names { SameNames (B.meter bench.old) (B.meter bench.new) }
{
    if let Need::Unit { k: _ } = copier.need() {
        return Ok(String::from_str(alloc, "a unit is next")?);
    }
    show_step(alloc, &job.source, copier.keep(bench, pool))
}
