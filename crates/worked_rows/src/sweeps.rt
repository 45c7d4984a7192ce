//! A copy that is stopped at each of its calls on the devices, or of which each call fails in turn, and that is gone on
//! with.
use crate::run_devices::run_on;
use anyhow::{Result, bail};
use bench::Dev;
use journal_format::{HEADER_LEN, held_in};
use scenario_answers::printer_of;
use scenario_devices::{Devices, Kept, keep_of};
use scenario_words::{Arguments, Setting};
use std::alloc::Global;

/// More calls than any of these copies makes.
const MOST_CALLS: u64 = 100;

/// The room of the devices, which is enough for two copies.
const ROOM: usize = 600_000;

/// The bytes that the lines of a run may take.
const LINES: usize = 1024;

/// What a target reads before its copy.
const FILL: u8 = 0xee;

/// Copies a file by a map, in units of 65,536 bytes and with a window, to a target of the file's size beside an empty
/// journal. For each call there is a copy that is stopped there, with each choice of what is kept; each of them is gone on
/// with, stopped at each call too, with all kept, and gone on with to the end. For each call there is also a copy of which
/// that call fails, and that is gone on with as the devices are.
#[derive(Debug, Drop)]
pub struct SweepStep {
    source: String,
    map: String,
    window: u32,
}

impl SweepStep {
    /// The step of a verb, where it is one of these.
    pub fn read(verb: &str, words: &mut Arguments) -> Result<Option<SweepStep>> {
        if verb != "sweep" {
            return Ok(None);
        }
        Ok(Some(SweepStep {
            source: words.text("a source")?,
            map: words.text("a map")?,
            window: words.word("a window")?,
        }))
    }

    /// Does it, and says how many of the copies weren't done in the end, or left another target than the source.
    pub fn play(self, setting: &mut Setting) -> Result<String> {
        let alloc = setting.alloc;
        let copies = Copies::of(setting, &self.source, &self.map, self.window)?;
        let stops = left_of_stops(setting, &copies)?;
        let failures = left_of_failures(setting, &copies)?;
        let window = self.window;
        Ok(format!(in alloc; "sweep window={window} stops left={stops} failures left={failures}")?)
    }
}

/// What the copies of a sweep have in common.
#[derive(Debug, Drop)]
struct Copies {
    source: Vec<u8>,
    target: Vec<u8>,
    copy: Vec<String>,
    resume: Vec<String>,
}

impl Copies {
    fn of(setting: &Setting, source: &str, map: &str, window: u32) -> Result<Copies> {
        let alloc = setting.alloc;
        let bytes = setting.copy_of(source)?;
        let window = format!(in alloc; "{window}")?;
        let resume = [source, map, "T", "J", "--unit", "65536"];
        let mut copy = words_of(alloc, "copy", &resume)?;
        copy.push(String::from_str(alloc, "--window")?)?;
        copy.push(window)?;
        Ok(Copies {
            target: vec![in alloc; FILL; bytes.len()]?,
            source: bytes,
            copy,
            resume: words_of(alloc, "resume", &resume)?,
        })
    }

    /// The devices before a copy.
    fn devices(&self, alloc: Global) -> Result<Devices> {
        Devices::new(alloc, &self.target, &[], ROOM)
    }
}

fn words_of(alloc: Global, command: &str, rest: &[&str]) -> Result<Vec<String>> {
    let mut words = Vec::new(alloc);
    words.push(String::from_str(alloc, command)?)?;
    for word in rest {
        words.push(String::from_str(alloc, word)?)?;
    }
    Ok(words)
}

/// Stops a copy at each of its calls.
fn left_of_stops(setting: &mut Setting, copies: &Copies) -> Result<u64> {
    let mut left = 0u64;
    for calls in 0..MOST_CALLS {
        match left_of_stop(setting, copies, calls)? {
            Some(more) => left = left.saturating_add(more),
            None => return Ok(left),
        }
    }
    bail!("too many calls")
}

/// Stops a copy behind so many calls, with each choice of what is kept. There is none where the copy is done.
fn left_of_stop(setting: &mut Setting, copies: &Copies, calls: u64) -> Result<Option<u64>> {
    let mut left = 0u64;
    for kept in [Kept::All, Kept::None, Kept::EverySecond] {
        let mut devices = copies.devices(setting.alloc)?;
        devices.stop_after(calls);
        if is_done(setting, &copies.copy, &mut devices)? {
            return Ok(None);
        }
        if is_new_choice(&kept, devices.pending()) {
            let devices = left_by(setting.alloc, devices, &kept)?;
            left = left.saturating_add(left_of_resumes(setting, copies, devices)?);
        }
    }
    Ok(Some(left))
}

/// Whether a choice of so many writes is another one than those before it: of one write the first is every second.
fn is_new_choice(kept: &Kept, pending: usize) -> bool {
    match kept {
        Kept::None => pending > 0,
        Kept::EverySecond => pending > 1,
        _ => true,
    }
}

fn left_by(alloc: Global, devices: Devices, kept: &Kept) -> Result<Devices> {
    let keep = keep_of(alloc, kept, devices.pending())?;
    devices.leave(alloc, &keep)
}

/// Goes on with a copy that was stopped, and stops at each of the calls of that, up to where it is done.
fn left_of_resumes(setting: &mut Setting, copies: &Copies, mut stopped: Devices) -> Result<u64> {
    let alloc = setting.alloc;
    let target = bytes_of(alloc, &mut stopped, Dev::Target)?;
    let journal = bytes_of(alloc, &mut stopped, Dev::Journal)?;
    let mut left = 0u64;
    for calls in 0..MOST_CALLS {
        let mut devices = Devices::new(alloc, &target, &journal, ROOM)?;
        let words = words_for(copies, &mut devices);
        devices.stop_after(calls);
        let done = is_done(setting, words, &mut devices)?;
        let mut devices = left_by(alloc, devices, &Kept::All)?;
        if !is_copied(setting, copies, &mut devices)? {
            left = left.saturating_add(1);
        }
        if done {
            return Ok(left);
        }
    }
    bail!("too many calls")
}

/// Lets each call of a copy fail in turn.
fn left_of_failures(setting: &mut Setting, copies: &Copies) -> Result<u64> {
    let mut left = 0u64;
    for call in 0..MOST_CALLS {
        let mut devices = copies.devices(setting.alloc)?;
        devices.fail(call)?;
        if is_done(setting, &copies.copy, &mut devices)? {
            return Ok(left);
        }
        if !is_copied(setting, copies, &mut devices)? {
            left = left.saturating_add(1);
        }
    }
    bail!("too many calls")
}

/// Goes on to the end, as the devices are. Whether that is done and the target reads as the source.
fn is_copied(setting: &mut Setting, copies: &Copies, devices: &mut Devices) -> Result<bool> {
    let alloc = setting.alloc;
    let words = words_for(copies, devices);
    let done = is_done(setting, words, devices)?;
    let target = bytes_of(alloc, devices, Dev::Target)?;
    Ok(done && target == copies.source)
}

/// Whether a command on the devices is done.
fn is_done(setting: &mut Setting, words: &Vec<String>, devices: &mut Devices) -> Result<bool> {
    let alloc = setting.alloc;
    let mut printer = printer_of(setting, LINES)?;
    let answer = run_on(
        alloc,
        words,
        &setting.vars,
        &mut setting.files,
        devices,
        &mut printer,
    )?;
    Ok(answer.status() == 0)
}

/// The words that go on beside the journal: it is resumed where it is held, else the copy begins again.
fn words_for<'a>(copies: &'a Copies, devices: &mut Devices) -> &'a Vec<String> {
    if is_held(devices) {
        &copies.resume
    } else {
        &copies.copy
    }
}

fn is_held(devices: &mut Devices) -> bool {
    let mut head = [0; HEADER_LEN];
    match devices.read(Dev::Journal, &mut head) {
        Ok(()) => held_in(&head).is_some(),
        Err(_) => false,
    }
}

/// The bytes of a device.
fn bytes_of(alloc: Global, devices: &mut Devices, dev: Dev) -> Result<Vec<u8>> {
    let Ok(len) = devices.length(dev) else {
        bail!("no length");
    };
    let mut bytes = vec![in alloc; 0; len as usize]?;
    if devices.read(dev, &mut bytes).is_err() {
        bail!("no bytes");
    }
    Ok(bytes)
}
