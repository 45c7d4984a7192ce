//! Steps that run commands, and look at their words and lines.
use crate::cut_files::CutFiles;
use crate::run_devices::run_on;
use crate::world::World;
use answer_lines::Answer;
use anyhow::{Result, bail};
use file_names::full_name;
use job_words::{WordFault, read_words};
use outside::{MemPrinter, SureFiles};
use scenario_answers::{printer_of, put_kept};
use scenario_devices::Devices;
use scenario_words::{Arguments, Setting};
use std::alloc::Global;

/// The bytes that the lines of a run may take.
const ROOM: usize = 65_536;

/// A step on a command or its words.
#[derive(Debug, Drop)]
pub enum RunStep {
    /// Runs a command of these words.
    Run {
        words: Vec<String>,
    },
    /// Runs a command over files of which no call fails, and takes this one of them.
    Sure {
        name: String,
        words: Vec<String>,
    },
    /// Runs a command over files of blanks, which are said to have so many bytes each and end before.
    Cut {
        len: u64,
        end: u64,
        words: Vec<String>,
    },
    /// The job of these words.
    Words {
        words: Vec<String>,
    },
    /// The full name of a file under a path.
    FullName {
        path: String,
        name: String,
    },
}

impl RunStep {
    /// The step of a verb, where it is one of these.
    pub fn read(verb: &str, words: &mut Arguments) -> Result<Option<RunStep>> {
        let step = match verb {
            "run" => RunStep::Run {
                words: words.texts("a word")?,
            },
            "run-sure" => RunStep::Sure {
                name: words.text("a file")?,
                words: words.texts("a word")?,
            },
            "run-cut" => RunStep::Cut {
                len: words.number("a length")?,
                end: words.number("an end")?,
                words: words.texts("a word")?,
            },
            "words" => RunStep::Words {
                words: words.texts("a word")?,
            },
            "full-name" => RunStep::FullName {
                path: words.text("a path")?,
                name: words.text("a name")?,
            },
            _ => return Ok(None),
        };
        Ok(Some(step))
    }

    /// Does it, and says what came of it.
    pub fn play(self, world: &mut World) -> Result<String> {
        let alloc = world.setting.alloc;
        match self {
            RunStep::Run { words } => run_words(world, &words),
            RunStep::Sure { name, words } => run_sure(world, &name, &words),
            RunStep::Cut { len, end, words } => run_cut(world, CutFiles::new(len, end), &words),
            RunStep::Words { words } => job_of(alloc, &words),
            RunStep::FullName { path, name } => show_full_name(alloc, &path, &name),
        }
    }
}

/// Runs a command on the devices, and shows its status, its answer and its lines.
fn run_words(world: &mut World, words: &Vec<String>) -> Result<String> {
    let World {
        setting,
        devices,
        ..
    } = world;
    let devices = devices_of(setting.alloc, devices)?;
    let mut printer = printer_of(setting, ROOM)?;
    let answer = if setting.trickles {
        run_trickled(setting, words, devices, &mut printer)?
    } else {
        run_on(
            setting.alloc,
            words,
            &setting.vars,
            &mut setting.files,
            devices,
            &mut printer,
        )?
    };
    show_run(setting.alloc, &answer, &printer)
}

/// The devices of a scenario, which are empty where none were made.
fn devices_of(alloc: Global, devices: &mut Option<Devices>) -> Result<&mut Devices> {
    if devices.is_none() {
        *devices = Some(Devices::new(alloc, &[], &[], ROOM)?);
    }
    match devices {
        Some(devices) => Ok(devices),
        None => bail!("no bench"),
    }
}

fn run_trickled(
    setting: &mut Setting,
    words: &Vec<String>,
    devices: &mut Devices,
    printer: &mut MemPrinter,
) -> Result<Answer> {
    let mut files = setting.take_trickled();
    let answer = run_on(
        setting.alloc,
        words,
        &setting.vars,
        &mut files,
        devices,
        printer,
    );
    setting.put_back(files);
    answer
}

/// The same over files of which no call fails. The one of this name is taken of them.
fn run_sure(world: &mut World, name: &str, words: &Vec<String>) -> Result<String> {
    let World {
        setting,
        devices,
        ..
    } = world;
    let alloc = setting.alloc;
    let devices = devices_of(alloc, devices)?;
    let mut printer = printer_of(setting, ROOM)?;
    let mut files = SureFiles::new(alloc);
    for name in setting.files.names()? {
        files.put(&name, setting.files.bytes(&name).unwrap_or(&[]))?;
    }
    let answer = run_on(
        alloc,
        words,
        &setting.vars,
        &mut files,
        devices,
        &mut printer,
    )?;
    if let Some(bytes) = files.bytes(name) {
        setting.files.put(name, bytes)?;
    }
    show_run(alloc, &answer, &printer)
}

/// The same over files that lie.
fn run_cut(world: &mut World, mut files: CutFiles, words: &Vec<String>) -> Result<String> {
    let World {
        setting,
        devices,
        ..
    } = world;
    let alloc = setting.alloc;
    let devices = devices_of(alloc, devices)?;
    let mut printer = printer_of(setting, ROOM)?;
    let answer = run_on(
        alloc,
        words,
        &setting.vars,
        &mut files,
        devices,
        &mut printer,
    )?;
    show_run(alloc, &answer, &printer)
}

fn show_run(alloc: Global, answer: &Answer, printer: &MemPrinter) -> Result<String> {
    let name = variant_of(alloc, &format!(in alloc; "{answer:?}")?)?;
    let status = answer.status();
    let mut shown = format!(in alloc; "{status} {name}")?;
    put_kept(alloc, printer, &mut shown)?;
    Ok(shown)
}

/// The variant's name, with which a value's form for debugging begins.
fn variant_of(alloc: Global, text: &str) -> Result<String> {
    let mut name = String::new(alloc);
    for letter in text.chars() {
        if !letter.is_ascii_alphanumeric() {
            break;
        }
        name.push(letter)?;
    }
    Ok(name)
}

fn job_of(alloc: Global, words: &Vec<String>) -> Result<String> {
    match read_words(alloc, words) {
        Ok(job) => Ok(format!(in alloc; "{job:?}")?),
        Err(WordFault::Usage) => Ok(String::from_str(alloc, "Usage")?),
        Err(WordFault::NoMemory) => Ok(String::from_str(alloc, "NoMemory")?),
    }
}

fn show_full_name(alloc: Global, path: &str, name: &str) -> Result<String> {
    let full = full_name(alloc, path, name)?;
    let text = full.text();
    Ok(format!(in alloc; "full name {text}")?)
}
