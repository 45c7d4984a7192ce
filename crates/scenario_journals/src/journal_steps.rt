//! Steps on the journal of a copy.
use crate::job_steps::JobStep;
use crate::jobs::Job;
use crate::outcomes::refusal;
use anyhow::{Result, bail};
use copy_journal::forget;
use scenario_devices::Devices;
use scenario_words::{Arguments, done};
use std::alloc::Global;

/// A step on the journal.
#[derive(Debug, Drop)]
pub enum JournalStep {
    /// Says which job the later steps are for.
    Job(Job),
    /// Forgets the journal, whatever job it is opened for.
    Forget,
    /// A step on the journal for the job.
    Act(JobStep),
}

impl JournalStep {
    /// The step of a verb, where it is one of these.
    pub fn read(alloc: Global, verb: &str, words: &mut Arguments) -> Result<Option<JournalStep>> {
        match verb {
            "journal-job" => Ok(Some(JournalStep::Job(Job::read(words)?))),
            "journal-forget" => Ok(Some(JournalStep::Forget)),
            _ => {
                let step = JobStep::read(alloc, verb, words)?;
                Ok(step.map(|step| JournalStep::Act(step)))
            }
        }
    }

    /// Does it, and says what came of it.
    pub fn play(
        self,
        alloc: Global,
        devices: &mut Option<Devices>,
        job: &mut Option<Job>,
    ) -> Result<String> {
        match self {
            JournalStep::Job(new) => {
                *job = Some(new);
                done(alloc)
            }
            JournalStep::Forget => match devices {
                Some(devices) => forget_all(alloc, devices),
                None => bail!("no bench"),
            },
            JournalStep::Act(step) => match (devices, job) {
                (Some(devices), Some(job)) => step.play(alloc, devices, job),
                (None, _) => bail!("no bench"),
                (_, None) => bail!("no job"),
            },
        }
    }
}

fn forget_all(alloc: Global, devices: &mut Devices) -> Result<String> {
    match forget(&mut devices.bench) {
        Ok(true) => Ok(String::from_str(alloc, "was held")?),
        Ok(false) => Ok(String::from_str(alloc, "was not held")?),
        Err(fault) => refusal(alloc, fault),
    }
}
