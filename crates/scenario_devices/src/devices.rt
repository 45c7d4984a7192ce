//! The two devices of a scenario.
ghost use Rattle.std.specs.Prelude.{◌≡◌, ℕ, List, OnOk, Some};
ghost use Rattle.bench.specs.declared.Dev.TheVariants.{Journal, Target};
ghost use Rattle.bench.specs.Meter.{IsAttached, SameNames};
ghost use Rattle.scenario_devices.specs.Naming.{IsKept, IsNamedAt};

use anyhow::{Result, bail};
use base_fields::Name;
use bench::{Bench, BenchErr, Dev};
use bench_devices::MemBench;
use std::alloc::Global;

/// A target and a journal in memory, both attached.
#[derive(Debug, Drop)]
pub struct Devices {
    /// The bench itself. A call that leaves both devices attached, under no other names, may be made on it.
    pub bench: MemBench,
    /// The only name that the target may have; it has none where there is none.
    pub target_word: Option<Name>,
    /// The same of the journal.
    pub journal_word: Option<Name>,
    pub ghost target: { IsAttached (⟦<MemBench as Bench>⟧.meter bench) Target },
    pub ghost journal: { IsAttached (⟦<MemBench as Bench>⟧.meter bench) Journal },
    pub ghost target_named: { IsNamedAt Target target_word (⟦<MemBench as Bench>⟧.meter bench) },
    pub ghost journal_named: { IsNamedAt Journal journal_word (⟦<MemBench as Bench>⟧.meter bench) },
}

impl Devices {
    /// The devices with these bytes, and room for the record of their calls.
    pub fn new(alloc: Global, target: &[u8], journal: &[u8], room: usize) -> Result<Devices> {
        let bench = MemBench::new(alloc, target, journal, room)?;
        Ok(Devices {
            bench,
            target_word: None,
            journal_word: None,
        })
    }

    /// Keeps the words under which a command attaches its devices. A device that may have another name is refused.
    pub fn keep_words(&mut self, target: Option<Name>, journal: Option<Name>) -> Result<()>
        ensures target { OnOk result (IsKept target self.new.target_word) }
        ensures journal { OnOk result (IsKept journal self.new.journal_word) }
    {
        keep_word(&mut self.target_word, target)?;
        keep_word(&mut self.journal_word, journal)?;
        Ok(())
    }

    /// Lets the call of a number fail, counted from the making of the devices.
    pub fn fail(&mut self, call: u64) -> Result<()> {
        self.bench.fail(call)?;
        Ok(())
    }

    /// Lets so many calls more pass.
    pub fn stop_after(&mut self, calls: u64) {
        self.bench.stop_after(calls);
    }

    /// How many writes and growths are pending.
    pub fn pending(&self) -> usize {
        self.bench.pending()
    }

    /// Puts a byte into the last pending write that covers a place, where there is one.
    pub fn tear(&mut self, dev: Dev, at: u64, byte: u8) -> bool {
        if !self.bench.is_pending_at(dev, at) {
            return false;
        }
        self.bench.tear(dev, at, byte);
        true
    }

    /// The devices as a stop leaves them that keeps these of the pending writes.
    pub fn leave(self, alloc: Global, keep: &[bool]) -> Result<Devices> {
        let Devices { bench, .. } = self;
        let left = bench.leave(alloc, keep)?;
        Ok(Devices {
            bench: left,
            target_word: None,
            journal_word: None,
        })
    }

    /// The length of a device.
    pub fn length(&mut self, dev: Dev) -> Result<u64, BenchErr> {
        match dev {
            Dev::Target => self.bench.length(Dev::Target),
            Dev::Journal => self.bench.length(Dev::Journal),
        }
    }

    /// The bytes at the front of a device, where so many are there, by two calls.
    pub fn read(&mut self, dev: Dev, buf: &mut [u8]) -> Result<(), BenchErr> {
        match dev {
            Dev::Target => read(&mut self.bench, Dev::Target, buf),
            Dev::Journal => read(&mut self.bench, Dev::Journal, buf),
        }
    }

    /// Writes where that is inside, by two calls.
    pub fn write(&mut self, dev: Dev, at: u64, bytes: &[u8]) -> Result<(), BenchErr> {
        match dev {
            Dev::Target => write(&mut self.bench, Dev::Target, at, bytes),
            Dev::Journal => write(&mut self.bench, Dev::Journal, at, bytes),
        }
    }

    /// Grows the journal where that is longer, by two calls.
    pub fn grow(&mut self, len: u64) -> Result<(), BenchErr> {
        grow(&mut self.bench, len)
    }

    /// Settles what is pending of a device.
    pub fn sync(&mut self, dev: Dev) -> Result<(), BenchErr> {
        match dev {
            Dev::Target => self.bench.sync(Dev::Target),
            Dev::Journal => self.bench.sync(Dev::Journal),
        }
    }
}

// Keeps the word of a command, where it has one and no other is kept.
fn keep_word(kept: &mut Option<Name>, given: Option<Name>) -> Result<()>
    ensures given { OnOk result (IsKept given kept.new) }
    ensures stays { (word : List ℕ) → kept.old ≡ Some word → kept.new ≡ Some word }
{
    let Some(given) = given else {
        return Ok(());
    };
    match kept {
        None => {
            *kept = Some(given);
            Ok(())
        }
        Some(word) if word.text() == given.text() => Ok(()),
        Some(_) => bail!("a device has another name"),
    }
}

fn read<B: Bench>(bench: &mut B, dev: Dev, buf: &mut [u8]) -> Result<(), BenchErr>
    requires { IsAttached (B.meter bench.old) dev }
    ensures { SameNames (B.meter bench.old) (B.meter bench.new) }
{
    let len = bench.length(dev)?;
    if buf.len() as u64 > len {
        return Err(BenchErr);
    }
    bench.read_at(dev, 0, buf)?;
    Ok(())
}

fn write<B: Bench>(bench: &mut B, dev: Dev, at: u64, bytes: &[u8]) -> Result<(), BenchErr>
    requires { IsAttached (B.meter bench.old) dev }
    ensures { SameNames (B.meter bench.old) (B.meter bench.new) }
{
    let len = bench.length(dev)?;
    if at > len || bytes.len() as u64 > len - at {
        return Err(BenchErr);
    }
    bench.write_at(dev, at, bytes)?;
    Ok(())
}

fn grow<B: Bench>(bench: &mut B, len: u64) -> Result<(), BenchErr>
    requires { IsAttached (B.meter bench.old) Dev.Journal }
    ensures { SameNames (B.meter bench.old) (B.meter bench.new) }
{
    if bench.length(Dev::Journal)? > len {
        return Err(BenchErr);
    }
    bench.grow(len)?;
    Ok(())
}

/// The device of a word.
pub fn device_of(word: &str) -> Result<Dev> {
    match word {
        "target" => Ok(Dev::Target),
        "journal" => Ok(Dev::Journal),
        _ => bail!("neither target nor journal: {word}"),
    }
}
