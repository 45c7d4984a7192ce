//! Steps that make a bench, and what a stop leaves of it.
use crate::device_steps::DeviceStep;
use crate::devices::Devices;
use anyhow::{Result, bail};
use scenario_words::{Arguments, Setting, done};
use std::alloc::Global;

/// A step on the bench.
#[derive(Debug, Drop)]
pub enum BenchStep {
    /// Makes the devices of the bytes of two files.
    Make {
        target: String,
        journal: String,
        room: usize,
    },
    /// What a stop leaves.
    Leave {
        kept: Kept,
    },
    /// A step on the devices as they are.
    Act(DeviceStep),
}

/// Which of the pending writes are kept.
#[derive(Debug, Drop)]
pub enum Kept {
    /// Each of them.
    All,
    /// None of them.
    None,
    /// The first, the third and so on.
    EverySecond,
    /// Those whose digit is 1.
    Listed(Vec<bool>),
}

impl BenchStep {
    /// The step of a verb, where it is one of these.
    pub fn read(alloc: Global, verb: &str, words: &mut Arguments) -> Result<Option<BenchStep>> {
        let step = match verb {
            "bench" => BenchStep::Make {
                target: words.text("a file")?,
                journal: words.text("a file")?,
                room: words.count("a room")?,
            },
            "leave" => BenchStep::Leave {
                kept: read_kept(alloc, words)?,
            },
            _ => {
                let step = DeviceStep::read(alloc, verb, words)?;
                return Ok(step.map(|step| BenchStep::Act(step)));
            }
        };
        Ok(Some(step))
    }

    /// Does it, and says what came of it.
    pub fn play(self, setting: &Setting, devices: &mut Option<Devices>) -> Result<String> {
        match self {
            BenchStep::Make {
                target,
                journal,
                room,
            } => make(setting, devices, &target, &journal, room),
            BenchStep::Leave { kept } => leave(setting.alloc, devices, &kept),
            BenchStep::Act(step) => match devices {
                Some(devices) => step.play(setting, devices),
                None => bail!("no bench"),
            },
        }
    }
}

fn read_kept(alloc: Global, words: &mut Arguments) -> Result<Kept> {
    let word = words.text("all, none, second or digits")?;
    match word.as_str() {
        "all" => Ok(Kept::All),
        "none" => Ok(Kept::None),
        "second" => Ok(Kept::EverySecond),
        digits => read_digits(alloc, digits),
    }
}

fn read_digits(alloc: Global, digits: &str) -> Result<Kept> {
    let mut keep = Vec::new(alloc);
    for digit in digits.bytes() {
        match digit {
            b'0' => keep.push(false)?,
            b'1' => keep.push(true)?,
            _ => bail!("neither 0 nor 1"),
        }
    }
    Ok(Kept::Listed(keep))
}

fn make(
    setting: &Setting,
    devices: &mut Option<Devices>,
    target: &str,
    journal: &str,
    room: usize,
) -> Result<String> {
    let target = setting.copy_of(target)?;
    let journal = setting.copy_of(journal)?;
    *devices = Some(Devices::new(setting.alloc, &target, &journal, room)?);
    done(setting.alloc)
}

fn leave(alloc: Global, devices: &mut Option<Devices>, kept: &Kept) -> Result<String> {
    let Some(stopped) = devices.take() else {
        bail!("no bench");
    };
    let keep = keep_of(alloc, kept, stopped.pending())?;
    *devices = Some(stopped.leave(alloc, &keep)?);
    done(alloc)
}

/// Which of so many pending writes are kept.
pub fn keep_of(alloc: Global, kept: &Kept, pending: usize) -> Result<Vec<bool>> {
    let mut keep = Vec::new(alloc);
    for number in 0..pending {
        keep.push(match kept {
            Kept::All => true,
            Kept::None => false,
            Kept::EverySecond => number % 2 == 0,
            Kept::Listed(list) => list.get(number).copied().unwrap_or(false),
        })?;
    }
    Ok(keep)
}
