//! The job that a scenario's journal is opened for.
ghost use Rattle.journal_format.specs.JobFields.{IsWithinLimits};

use anyhow::{Result, bail};
use block_map::MAX_RANGES;
use copy_journal::JobId;
use scenario_words::Arguments;

/// The most units that a job may have.
const MAX_UNITS: u64 = 4_194_304;

/// A job with no more units and ranges than one may have.
#[derive(Clone, Copy, Debug)]
pub struct Job {
    pub id: JobId,
    pub ghost limits: { IsWithinLimits id },
}

impl Job {
    /// The job of these words: the byte of which its digest has 32, and its five numbers.
    pub fn read(words: &mut Arguments) -> Result<Job> {
        let digest = [words.byte("a digest's byte")?; 32];
        Job::of(JobId {
            digest,
            size: words.number("a size")?,
            block: words.word("a block's size")?,
            unit: words.word("a unit's size")?,
            units: words.number("a number of units")?,
            ranges: words.number("a number of ranges")?,
        })
    }

    fn of(id: JobId) -> Result<Job> {
        if id.units > MAX_UNITS || id.ranges > MAX_RANGES as u64 {
            bail!("more units or ranges than a job may have");
        }
        Ok(Job { id })
    }
}
