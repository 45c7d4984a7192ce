//! Plays a scenario over objects in memory: it reads a step a line from standard input and prints what
//! came of each.
#![tactic(auto)]

mod cut_files;
mod playing;
mod run_devices;
mod run_steps;
mod steps;
mod sweeps;
mod world;

use std::io::{self, BufReader, BufWriter, Write};

fn main(rt: HostRuntime) -> io::Result<()> {
    let alloc = rt.alloc();
    let mut input = BufReader::new(alloc, rt.reader())?;
    let mut out = BufWriter::new(alloc, io::writer(&rt))?;
    playing::play(alloc, &mut input, &mut out)?;
    out.flush()
}
