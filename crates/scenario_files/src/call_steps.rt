//! Steps that are calls of the files.
use anyhow::{Result, bail};
use base_fields::Span;
use outside::{Files, fill, transfer};
use scenario_words::{Arguments, Contents, Setting, done, part, shown};
use std::alloc::Global;

/// A call of the files.
#[derive(Debug, Drop)]
pub enum CallStep {
    /// Asks for the length of a file.
    Length {
        name: String,
    },
    /// Reads into a buffer by one call.
    Read {
        name: String,
        at: u64,
        len: usize,
    },
    /// Fills a buffer by as many calls as that needs.
    Fill {
        name: String,
        at: u64,
        len: usize,
    },
    /// Makes a file of so many zeros.
    Create {
        name: String,
        len: u64,
    },
    /// Writes at a place that isn't past the end.
    Write {
        name: String,
        at: u64,
        contents: Contents,
    },
    /// Copies a run of bytes to a place of another file, through a buffer of so many bytes.
    Transfer {
        source: String,
        run: Span,
        target: String,
        to: u64,
        room: usize,
    },
}

impl CallStep {
    /// The step of a verb, where it is one of these.
    pub fn read(alloc: Global, verb: &str, words: &mut Arguments) -> Result<Option<CallStep>> {
        let step = match verb {
            "call-length" => CallStep::Length {
                name: words.text("a file")?,
            },
            "call-read" => CallStep::Read {
                name: words.text("a file")?,
                at: words.number("a place")?,
                len: words.count("a length")?,
            },
            "call-fill" => CallStep::Fill {
                name: words.text("a file")?,
                at: words.number("a place")?,
                len: words.count("a length")?,
            },
            "call-create" => CallStep::Create {
                name: words.text("a file")?,
                len: words.number("a length")?,
            },
            "call-write" => CallStep::Write {
                name: words.text("a file")?,
                at: words.number("a place")?,
                contents: Contents::read(alloc, words)?,
            },
            "transfer" => read_transfer(words)?,
            _ => return Ok(None),
        };
        Ok(Some(step))
    }

    /// Does it, and says what came of it.
    pub fn play(self, setting: &mut Setting) -> Result<String> {
        match self {
            CallStep::Length { name } => length(setting, &name),
            CallStep::Read { name, at, len } => read(setting, &name, at, len),
            CallStep::Fill { name, at, len } => filled(setting, &name, at, len),
            CallStep::Create { name, len } => create(setting, &name, len),
            CallStep::Write { name, at, contents } => write(setting, &name, at, &contents),
            CallStep::Transfer {
                source,
                run,
                target,
                to,
                room,
            } => transferred(setting, &source, run, &target, to, room),
        }
    }
}

fn read_transfer(words: &mut Arguments) -> Result<CallStep> {
    let source = words.text("a file")?;
    let at = words.number("a place")?;
    let len = words.number("a length")?;
    let target = words.text("a file")?;
    let to = words.number("a place")?;
    let room = words.count("a room")?;
    Ok(CallStep::Transfer {
        source,
        run: Span { at, len },
        target,
        to,
        room,
    })
}

fn length(setting: &mut Setting, name: &str) -> Result<String> {
    match setting.files.length(name) {
        Ok(len) => Ok(format!(in setting.alloc; "length {len}")?),
        Err(fault) => Ok(format!(in setting.alloc; "no length: {fault:?}")?),
    }
}

fn read(setting: &mut Setting, name: &str, at: u64, len: usize) -> Result<String> {
    if setting.trickles {
        let mut files = setting.take_trickled();
        let answer = read_of(setting.alloc, &mut files, name, at, len);
        setting.put_back(files);
        return answer;
    }
    read_of(setting.alloc, &mut setting.files, name, at, len)
}

fn read_of<F: Files>(
    alloc: Global,
    files: &mut F,
    name: &str,
    at: u64,
    len: usize,
) -> Result<String> {
    if len == 0 {
        bail!("an empty buffer");
    }
    let mut buf = vec![in alloc; 0; len]?;
    match files.read_at(name, at, &mut buf) {
        Ok(count) => {
            let text = shown(alloc, part(&buf, 0, count))?;
            Ok(format!(in alloc; "read {text}")?)
        }
        Err(fault) => Ok(format!(in alloc; "not read: {fault:?}")?),
    }
}

fn filled(setting: &mut Setting, name: &str, at: u64, len: usize) -> Result<String> {
    if at.checked_add(len as u64).is_none() {
        bail!("past 2^64");
    }
    let mut buf = vec![in setting.alloc; 0; len]?;
    match fill(&mut setting.files, name, at, &mut buf) {
        Ok(()) => {
            let text = shown(setting.alloc, &buf)?;
            Ok(format!(in setting.alloc; "filled {text}")?)
        }
        Err(fault) => Ok(format!(in setting.alloc; "not filled: {fault:?}")?),
    }
}

fn create(setting: &mut Setting, name: &str, len: u64) -> Result<String> {
    match setting.files.create(name, len) {
        Ok(()) => done(setting.alloc),
        Err(fault) => Ok(format!(in setting.alloc; "not made: {fault:?}")?),
    }
}

fn write(setting: &mut Setting, name: &str, at: u64, contents: &Contents) -> Result<String> {
    let bytes = contents.bytes(setting.alloc, &setting.files)?;
    if !setting.files.reaches(name, at) {
        bail!("the file ends before");
    }
    match setting.files.write_at(name, at, &bytes) {
        Ok(()) => done(setting.alloc),
        Err(fault) => Ok(format!(in setting.alloc; "not written: {fault:?}")?),
    }
}

fn transferred(
    setting: &mut Setting,
    source: &str,
    run: Span,
    target: &str,
    to: u64,
    room: usize,
) -> Result<String> {
    if run.at.checked_add(run.len).is_none() || to.checked_add(run.len).is_none() {
        bail!("past 2^64");
    }
    if room == 0 || source == target || !setting.files.reaches(target, to) {
        bail!("no such transfer");
    }
    let mut buf = vec![in setting.alloc; 0; room]?;
    match transfer(&mut setting.files, source, run, target, to, &mut buf) {
        Ok(()) => done(setting.alloc),
        Err(fault) => Ok(format!(in setting.alloc; "not transferred: {fault:?}")?),
    }
}
