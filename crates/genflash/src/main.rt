//! genflash: the last step of an embedded Linux build. It hands the words behind its name and the environment's
//! variables to `run`, over the real files and devices and standard output, and ends with the answer's status.
#![tactic(auto)]

mod handing;

use answer_lines::{Answer, LINE_ROOM, error_line};
use bench_devices::HostBench;
use handing::hand_in;
use host_files::{HostFiles, HostPrinter};
use image_jobs::run;
use outside::Printer;
use std::env::VarError;
use std::process::ExitCode;
use std::{env, io};

/// The status where memory is refused before there is an answer.
const NO_MEMORY: u8 = 11;

// The program's name and the words behind it. Words that aren't UTF-8 are no command, as no words are.
fn arguments(rt: &HostRuntime) -> Option<Vec<String>> {
    match env::args(rt) {
        Ok(args) => args.collect(rt.alloc()).ok(),
        Err(error) if error.kind() == io::ErrorKind::OutOfMemory => None,
        Err(_) => Some(Vec::new(rt.alloc())),
    }
}

// The variables of the environment, each a name and its value.
fn environment(rt: &HostRuntime) -> Result<Vec<(String, String)>, VarError> {
    match env::vars(rt)?.collect(rt.alloc()) {
        Ok(variables) => Ok(variables),
        Err(_) => Err(VarError::OutOfMemory),
    }
}

// Prints the line of an answer that comes before the command, and gives its status.
fn refused(answer: &Answer, printer: &mut HostPrinter<HostRuntime>) -> u8 {
    let mut room = [0; LINE_ROOM];
    let length = error_line(answer, &mut room);
    let _ = printer.line(&room[..length]);
    answer.status()
}

fn status(rt: &HostRuntime) -> Option<u8> {
    let arguments = arguments(rt)?;
    let mut files = HostFiles::new(rt.clone().ok()?);
    let mut bench = HostBench::new(rt.clone().ok()?);
    let mut printer = HostPrinter::new(rt.clone().ok()?);
    let environment = match environment(rt) {
        Ok(environment) => environment,
        Err(VarError::OutOfMemory) => return None,
        Err(_) => return Some(refused(&Answer::FileFault, &mut printer)),
    };
    let handed = hand_in(rt.alloc(), arguments, environment).ok()?;
    let answer = run(
        rt.alloc(),
        &handed.words,
        &handed.vars,
        &mut files,
        &mut bench,
        &mut printer,
    );
    Some(answer.status())
}

fn main(rt: HostRuntime) -> ExitCode {
    ExitCode::from(status(&rt).unwrap_or(NO_MEMORY))
}
