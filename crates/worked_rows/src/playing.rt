//! A scenario from its lines.
use crate::steps::Step;
use crate::world::World;
use scenario_words::{Arguments, split};
use std::alloc::Global;
use std::io::{self, BufRead, Write};

/// Plays the steps of a scenario, one a line, and writes what came of each. A line that is no step is an error with
/// its number, and the scenario goes on.
pub fn play<R: BufRead, W: Write>(alloc: Global, input: &mut R, out: &mut W) -> io::Result<()> {
    let mut world = World::new(alloc);
    let mut line = Vec::new(alloc);
    for number in 1..u64::MAX {
        line.clear();
        if input.read_until(b'\n', &mut line)? == 0 {
            break;
        }
        let line = line.strip_suffix(b"\n").unwrap_or(&line);
        play_line(&mut world, number, line, out)?;
    }
    Ok(())
}

/// An empty line, and one that begins with `#`, is no step and prints nothing.
fn play_line<W: Write>(world: &mut World, number: u64, line: &[u8], out: &mut W) -> io::Result<()> {
    let text = line.trim_ascii();
    if text.is_empty() || text.starts_with(b"#") {
        return Ok(());
    }
    match played(world, text) {
        Ok(shown) => writeln!(out, "{shown}"),
        Err(fault) => writeln!(out, "line {number}: {fault:#}"),
    }
}

fn played(world: &mut World, line: &[u8]) -> anyhow::Result<String> {
    let alloc = world.setting.alloc;
    let words = split(alloc, line)?;
    let mut arguments = Arguments::new(alloc, words);
    let step = Step::read(alloc, &mut arguments)?;
    arguments.end()?;
    step.play(world)
}
