//! Steps on the files, the variables and the calls that fail.
use anyhow::{Result, bail};
use base_fields::{Name, Pair};
use scenario_words::{Arguments, Contents, Setting, done, part, shown};
use std::alloc::Global;

/// A step on the files, the variables or what is to fail.
#[derive(Debug, Drop)]
pub enum FileStep {
    /// Makes or replaces a file.
    Put {
        name: String,
        contents: Contents,
    },
    /// Puts bytes over those from a place on, past the end too.
    Change {
        name: String,
        at: usize,
        contents: Contents,
    },
    /// Cuts a file, or lengthens it by zeros.
    Length {
        name: String,
        len: usize,
    },
    /// Removes a file, and lets no call fail but those that are said later.
    Remove {
        name: String,
    },
    /// Lists the files.
    Names,
    /// Shows at most so many bytes from a place on.
    Show {
        name: String,
        at: usize,
        len: usize,
    },
    /// Whether two files are equal, or the first place at which they aren't.
    Compare {
        name: String,
        other: String,
    },
    /// Adds a variable. The first value of a name counts.
    Variable {
        name: String,
        value: String,
    },
    /// Lets a call of the files fail. The next one is number 0.
    FailFiles {
        call: u64,
    },
    /// Lets a line of the next run fail. The first one is number 0.
    FailLine {
        line: u64,
    },
    /// Whether a call reads at most one byte.
    Trickle {
        on: bool,
    },
}

impl FileStep {
    /// The step of a verb, where it is one of these.
    pub fn read(alloc: Global, verb: &str, words: &mut Arguments) -> Result<Option<FileStep>> {
        let step = match verb {
            "file" => read_put(alloc, words)?,
            "change" => read_change(alloc, words)?,
            "length" => read_length(words)?,
            "remove" => FileStep::Remove {
                name: words.text("a file")?,
            },
            "names" => FileStep::Names,
            "show" => read_show(words)?,
            "compare" => FileStep::Compare {
                name: words.text("a file")?,
                other: words.text("a file")?,
            },
            "var" => read_variable(words)?,
            "fail-files" => FileStep::FailFiles {
                call: words.number("a call")?,
            },
            "fail-line" => FileStep::FailLine {
                line: words.number("a line")?,
            },
            "trickle" => FileStep::Trickle {
                on: words.truth("trickle")?,
            },
            _ => return Ok(None),
        };
        Ok(Some(step))
    }

    /// Does it, and says what came of it.
    pub fn play(self, setting: &mut Setting) -> Result<String> {
        match self {
            FileStep::Put { name, contents } => put(setting, &name, &contents),
            FileStep::Change { name, at, contents } => change(setting, &name, at, &contents),
            FileStep::Length { name, len } => set_length(setting, &name, len),
            FileStep::Remove { name } => remove(setting, &name),
            FileStep::Names => names(setting),
            FileStep::Show { name, at, len } => show(setting, &name, at, len),
            FileStep::Compare { name, other } => compare(setting, &name, &other),
            FileStep::Variable { name, value } => add_variable(setting, &name, &value),
            FileStep::FailFiles { call } => fail_files(setting, call),
            FileStep::FailLine { line } => fail_line(setting, line),
            FileStep::Trickle { on } => trickle(setting, on),
        }
    }
}

fn read_put(alloc: Global, words: &mut Arguments) -> Result<FileStep> {
    let name = words.text("a file")?;
    let contents = Contents::read(alloc, words)?;
    Ok(FileStep::Put { name, contents })
}

fn read_change(alloc: Global, words: &mut Arguments) -> Result<FileStep> {
    let name = words.text("a file")?;
    let at = words.count("a place")?;
    let contents = Contents::read(alloc, words)?;
    Ok(FileStep::Change { name, at, contents })
}

fn read_length(words: &mut Arguments) -> Result<FileStep> {
    let name = words.text("a file")?;
    let len = words.count("a length")?;
    Ok(FileStep::Length { name, len })
}

fn read_show(words: &mut Arguments) -> Result<FileStep> {
    let name = words.text("a file")?;
    if words.is_empty() {
        return Ok(FileStep::Show {
            name,
            at: 0,
            len: usize::MAX,
        });
    }
    let at = words.count("a place")?;
    let len = words.count("a length")?;
    Ok(FileStep::Show { name, at, len })
}

fn read_variable(words: &mut Arguments) -> Result<FileStep> {
    let name = words.text("a name")?;
    let value = words.text("a value")?;
    Ok(FileStep::Variable { name, value })
}

fn put(setting: &mut Setting, name: &str, contents: &Contents) -> Result<String> {
    let bytes = contents.bytes(setting.alloc, &setting.files)?;
    setting.store(name, &bytes)
}

fn change(setting: &mut Setting, name: &str, at: usize, contents: &Contents) -> Result<String> {
    let mut bytes = setting.copy_of(name)?;
    let run = contents.bytes(setting.alloc, &setting.files)?;
    let Some(front) = bytes.get(..at) else {
        bail!("the file ends before");
    };
    let mut changed = Vec::from_slice(setting.alloc, front)?;
    changed.extend_from_slice(&run)?;
    changed.extend_from_slice(part(&bytes, changed.len(), usize::MAX))?;
    bytes = changed;
    setting.store(name, &bytes)
}

fn set_length(setting: &mut Setting, name: &str, len: usize) -> Result<String> {
    let mut bytes = setting.copy_of(name)?;
    bytes.resize(len, 0)?;
    setting.store(name, &bytes)
}

fn remove(setting: &mut Setting, name: &str) -> Result<String> {
    setting.files.remove(name)?;
    done(setting.alloc)
}

fn names(setting: &Setting) -> Result<String> {
    let mut line = String::from_str(setting.alloc, "names")?;
    for name in setting.files.names()? {
        line.push_str(" ")?;
        line.push_str(&name)?;
    }
    Ok(line)
}

fn show(setting: &Setting, name: &str, at: usize, len: usize) -> Result<String> {
    match setting.files.bytes(name) {
        Some(bytes) => {
            let text = shown(setting.alloc, part(bytes, at, len))?;
            Ok(format!(in setting.alloc; "{name}: {text}")?)
        }
        None => Ok(format!(in setting.alloc; "{name}: no file")?),
    }
}

fn compare(setting: &Setting, name: &str, other: &str) -> Result<String> {
    let (Some(bytes), Some(others)) = (setting.files.bytes(name), setting.files.bytes(other)) else {
        bail!("no such file");
    };
    if bytes == others {
        return Ok(String::from_str(setting.alloc, "equal")?);
    }
    let mut pairs = bytes.iter().zip(others);
    let at = pairs.position(|(byte, other)| byte != other);
    let at = at.unwrap_or(bytes.len().min(others.len()));
    Ok(format!(in setting.alloc; "differ at {at}")?)
}

fn add_variable(setting: &mut Setting, name: &str, value: &str) -> Result<String> {
    setting.vars.push(Pair {
        name: Name::of(setting.alloc, name)?,
        value: Name::of(setting.alloc, value)?,
    })?;
    done(setting.alloc)
}

fn fail_files(setting: &mut Setting, call: u64) -> Result<String> {
    setting.files.fail(call)?;
    done(setting.alloc)
}

fn fail_line(setting: &mut Setting, line: u64) -> Result<String> {
    setting.failing_lines.push(line)?;
    done(setting.alloc)
}

fn trickle(setting: &mut Setting, on: bool) -> Result<String> {
    setting.trickles = on;
    done(setting.alloc)
}
