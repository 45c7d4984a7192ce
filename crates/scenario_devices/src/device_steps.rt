//! Steps on the two devices of a bench.
use crate::devices::{Devices, device_of};
use anyhow::Result;
use bench::{BenchErr, Dev};
use scenario_words::{Arguments, Contents, Setting, done, part, shown};
use std::alloc::Global;

/// A step on the devices.
#[derive(Debug, Drop)]
pub enum DeviceStep {
    /// Lets the call of this number fail, from the making or the last `leave` on.
    Fail {
        call: u64,
    },
    /// Lets so many calls more pass, and none after them.
    Stop {
        calls: u64,
    },
    /// Puts a byte into the last pending write that covers a place.
    Tear {
        dev: Dev,
        at: u64,
        byte: u8,
    },
    /// How many writes and growths are pending.
    Pending,
    /// Shows at most so many bytes from a place on. Takes three calls.
    Show {
        dev: Dev,
        at: usize,
        len: usize,
    },
    /// The length of a device, by one call.
    Length {
        dev: Dev,
    },
    /// Writes inside of a device, by two calls.
    Write {
        dev: Dev,
        at: u64,
        contents: Contents,
    },
    /// Grows the journal, by two calls.
    Grow {
        len: u64,
    },
    /// Settles a device, by one call.
    Sync {
        dev: Dev,
    },
}

impl DeviceStep {
    /// The step of a verb, where it is one of these.
    pub fn read(alloc: Global, verb: &str, words: &mut Arguments) -> Result<Option<DeviceStep>> {
        let step = match verb {
            "fail-bench" => DeviceStep::Fail {
                call: words.number("a call")?,
            },
            "stop" => DeviceStep::Stop {
                calls: words.number("a count")?,
            },
            "tear" => DeviceStep::Tear {
                dev: read_device(words)?,
                at: words.number("a place")?,
                byte: words.byte("a byte")?,
            },
            "pending" => DeviceStep::Pending,
            _ => return read_call(alloc, verb, words),
        };
        Ok(Some(step))
    }

    /// Does it, and says what came of it.
    pub fn play(self, setting: &Setting, devices: &mut Devices) -> Result<String> {
        let alloc = setting.alloc;
        match self {
            DeviceStep::Fail { call } => {
                devices.fail(call)?;
                done(alloc)
            }
            DeviceStep::Stop { calls } => {
                devices.stop_after(calls);
                done(alloc)
            }
            DeviceStep::Tear { dev, at, byte } => tear(alloc, devices, dev, at, byte),
            DeviceStep::Pending => pending(alloc, devices),
            DeviceStep::Show { dev, at, len } => show(alloc, devices, dev, at, len),
            DeviceStep::Length { dev } => length(alloc, devices, dev),
            DeviceStep::Write { dev, at, contents } => write(setting, devices, dev, at, &contents),
            DeviceStep::Grow { len } => outcome(alloc, devices.grow(len)),
            DeviceStep::Sync { dev } => outcome(alloc, devices.sync(dev)),
        }
    }
}

/// The steps that are calls of the bench.
fn read_call(alloc: Global, verb: &str, words: &mut Arguments) -> Result<Option<DeviceStep>> {
    let step = match verb {
        "bench-show" => read_show(words)?,
        "bench-length" => DeviceStep::Length {
            dev: read_device(words)?,
        },
        "bench-write" => DeviceStep::Write {
            dev: read_device(words)?,
            at: words.number("a place")?,
            contents: Contents::read(alloc, words)?,
        },
        "bench-grow" => DeviceStep::Grow {
            len: words.number("a length")?,
        },
        "bench-sync" => DeviceStep::Sync {
            dev: read_device(words)?,
        },
        _ => return Ok(None),
    };
    Ok(Some(step))
}

fn read_device(words: &mut Arguments) -> Result<Dev> {
    let word = words.text("target or journal")?;
    device_of(&word)
}

fn read_show(words: &mut Arguments) -> Result<DeviceStep> {
    let dev = read_device(words)?;
    if words.is_empty() {
        return Ok(DeviceStep::Show {
            dev,
            at: 0,
            len: usize::MAX,
        });
    }
    let at = words.count("a place")?;
    let len = words.count("a length")?;
    Ok(DeviceStep::Show { dev, at, len })
}

fn tear(alloc: Global, devices: &mut Devices, dev: Dev, at: u64, byte: u8) -> Result<String> {
    let torn = devices.tear(dev, at, byte);
    let text = if torn { "torn" } else { "not pending there" };
    Ok(String::from_str(alloc, text)?)
}

fn pending(alloc: Global, devices: &Devices) -> Result<String> {
    let count = devices.pending();
    Ok(format!(in alloc; "pending {count}")?)
}

/// What a call that has nothing to show answered.
fn outcome(alloc: Global, answer: Result<(), BenchErr>) -> Result<String> {
    match answer {
        Ok(()) => done(alloc),
        Err(BenchErr) => failed(alloc),
    }
}

fn failed(alloc: Global) -> Result<String> {
    Ok(String::from_str(alloc, "the call failed")?)
}

fn show(alloc: Global, devices: &mut Devices, dev: Dev, at: usize, len: usize) -> Result<String> {
    let Ok(all) = devices.length(dev) else {
        return failed(alloc);
    };
    let mut bytes = vec![in alloc; 0; all as usize]?;
    match devices.read(dev, &mut bytes) {
        Ok(()) => shown(alloc, part(&bytes, at, len)),
        Err(BenchErr) => failed(alloc),
    }
}

fn length(alloc: Global, devices: &mut Devices, dev: Dev) -> Result<String> {
    match devices.length(dev) {
        Ok(len) => Ok(format!(in alloc; "length {len}")?),
        Err(BenchErr) => failed(alloc),
    }
}

fn write(
    setting: &Setting,
    devices: &mut Devices,
    dev: Dev,
    at: u64,
    contents: &Contents,
) -> Result<String> {
    let bytes = contents.bytes(setting.alloc, &setting.files)?;
    outcome(setting.alloc, devices.write(dev, at, &bytes))
}
