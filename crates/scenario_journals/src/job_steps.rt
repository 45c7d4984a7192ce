//! Steps on the journal of a job.
use crate::calls::{clear, mark_range, may_record, record};
use crate::jobs::Job;
use crate::outcomes::{outcome, refusal};
use anyhow::{Result, bail};
use copy_journal::{open_new, open_old};
use scenario_devices::Devices;
use scenario_words::{Arguments, shown};
use std::alloc::Global;

/// A step on the journal for the job.
#[derive(Debug, Drop)]
pub enum JobStep {
    /// Opens the journal anew with a window.
    New { window: u32 },
    /// Opens it again, and shows its window and its marks.
    Old,
    /// Records units by their numbers.
    Record { units: Vec<u64> },
    /// Records the range of a number.
    Range { range: u64 },
    /// Takes back the records of so many units from a number on.
    Clear { first: u64, count: u64 },
}

impl JobStep {
    /// The step of a verb, where it is one of these.
    pub fn read(alloc: Global, verb: &str, words: &mut Arguments) -> Result<Option<JobStep>> {
        let step = match verb {
            "journal-new" => JobStep::New {
                window: words.word("a window")?,
            },
            "journal-old" => JobStep::Old,
            "journal-record" => JobStep::Record {
                units: read_numbers(alloc, words)?,
            },
            "journal-range" => JobStep::Range {
                range: words.number("a range")?,
            },
            "journal-clear" => JobStep::Clear {
                first: words.number("a unit")?,
                count: words.number("a count")?,
            },
            _ => return Ok(None),
        };
        Ok(Some(step))
    }

    /// Does it, and says what came of it.
    pub fn play(self, alloc: Global, devices: &mut Devices, job: &Job) -> Result<String> {
        match self {
            JobStep::New { window } => open(alloc, devices, job, window),
            JobStep::Old => open_again(alloc, devices, job),
            JobStep::Record { units } => record_all(alloc, devices, job, &units),
            JobStep::Range { range } => record_one(alloc, devices, job, range),
            JobStep::Clear { first, count } => take_back(alloc, devices, job, first, count),
        }
    }
}

fn read_numbers(alloc: Global, words: &mut Arguments) -> Result<Vec<u64>> {
    let mut numbers = Vec::new(alloc);
    for _ in 0..words.left() {
        numbers.push(words.number("a unit")?)?;
    }
    Ok(numbers)
}

fn open(alloc: Global, devices: &mut Devices, job: &Job, window: u32) -> Result<String> {
    if window == 0 || window > 16 {
        bail!("a window is from 1 to 16");
    }
    outcome(alloc, open_new(&mut devices.bench, &job.id, window))
}

fn open_again(alloc: Global, devices: &mut Devices, job: &Job) -> Result<String> {
    match open_old(alloc, &mut devices.bench, &job.id) {
        Ok(marks) => {
            let window = marks.window;
            let units = shown(alloc, marks.units.bytes())?;
            let ranges = shown(alloc, marks.ranges.bytes())?;
            Ok(format!(in alloc; "window {window}, units {units}, ranges {ranges}")?)
        }
        Err(fault) => refusal(alloc, fault),
    }
}

fn record_all(alloc: Global, devices: &mut Devices, job: &Job, units: &[u64]) -> Result<String> {
    if !may_record(units, job.id.units) {
        bail!("not 1 to 16 ascending numbers of units");
    }
    outcome(alloc, record(alloc, &mut devices.bench, &job.id, units))
}

fn record_one(alloc: Global, devices: &mut Devices, job: &Job, range: u64) -> Result<String> {
    if range >= job.id.ranges {
        bail!("no such range");
    }
    outcome(alloc, mark_range(alloc, &mut devices.bench, &job.id, range))
}

fn take_back(
    alloc: Global,
    devices: &mut Devices,
    job: &Job,
    first: u64,
    count: u64,
) -> Result<String> {
    if first > job.id.units || count > job.id.units - first {
        bail!("no such units");
    }
    outcome(
        alloc,
        clear(alloc, &mut devices.bench, &job.id, first, count),
    )
}
