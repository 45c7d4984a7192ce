//! A command on the devices of a scenario.
use answer_lines::Answer;
use anyhow::Result;
use image_jobs::{Vars, device_names, run};
use outside::{Files, MemPrinter};
use scenario_devices::Devices;
use std::alloc::Global;

/// Runs a command on the devices. Where one of them may have another name than the command's word, that is refused.
pub fn run_on<F: Files>(
    alloc: Global,
    words: &Vec<String>,
    vars: &Vars,
    files: &mut F,
    devices: &mut Devices,
    printer: &mut MemPrinter,
) -> Result<Answer> {
    let names = device_names(alloc, words)?;
    devices.keep_words(names.target, names.journal)?;
    Ok(run(alloc, words, vars, files, &mut devices.bench, printer))
}
