//! Steps on the copier.
use crate::acts::Act;
use crate::jobs::job_of;
use crate::running::run;
use anyhow::{Result, bail};
use base_fields::Name;
use copier::Mode;
use map_source::read_map;
use scenario_devices::Devices;
use scenario_words::{Arguments, Setting};
use std::alloc::Global;

/// A step on the copier: it is opened for a job, does these acts in order, and is closed.
#[derive(Debug, Drop)]
pub struct CopyStep {
    source: String,
    map: String,
    unit: u32,
    mode: Mode,
    window: u32,
    acts: Vec<Act>,
}

impl CopyStep {
    /// The step of a verb, where it is one of these.
    pub fn read(alloc: Global, verb: &str, words: &mut Arguments) -> Result<Option<CopyStep>> {
        if verb != "copier" {
            return Ok(None);
        }
        let source = words.text("a source")?;
        let map = words.text("a map")?;
        let unit = words.word("a unit's size")?;
        let (mode, window) = read_mode(words)?;
        Ok(Some(CopyStep {
            source,
            map,
            unit,
            mode,
            window,
            acts: Act::read_all(alloc, words)?,
        }))
    }

    /// Does it on the bench and the files as they are, and says what came of it.
    pub fn play(self, setting: &mut Setting, devices: &mut Option<Devices>) -> Result<String> {
        let alloc = setting.alloc;
        let Some(devices) = devices else {
            bail!("no bench");
        };
        let map = match read_map(alloc, &mut setting.files, &self.map) {
            Ok(map) => map,
            Err(fault) => return Ok(format!(in alloc; "no map: {fault:?}")?),
        };
        let source = Name::of(alloc, &self.source)?;
        let job = job_of(alloc, source, map, self.unit, self.mode, self.window)?;
        run(
            alloc,
            &mut setting.files,
            &mut devices.bench,
            &job,
            &self.acts,
        )
    }
}

/// The mode, with the window of a journal that is opened anew.
fn read_mode(words: &mut Arguments) -> Result<(Mode, u32)> {
    let word = words.text("fresh or again")?;
    match word.as_str() {
        "fresh" => Ok((Mode::Fresh, words.word("a window")?)),
        "again" => Ok((Mode::Again, 1)),
        _ => bail!("neither fresh nor again: {word}"),
    }
}
