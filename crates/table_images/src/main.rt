//! Prints whole images of partition tables, for other tools to look at: a line `image NAME SIZE` for each, and behind it
//! a line `OFFSET HEX` for each sixteen bytes that aren't all zero.
#![tactic(auto)]

mod chain_image;
mod gpt_images;
mod printing;

use std::io::{self, BufWriter, Write};

fn main(rt: HostRuntime) -> anyhow::Result<()> {
    let alloc = rt.alloc();
    let mut out = BufWriter::new(alloc, io::writer(&rt))?;
    chain_image::print(&mut out)?;
    gpt_images::print_gpt(alloc, &mut out)?;
    gpt_images::print_hybrid(alloc, &mut out)?;
    gpt_images::print_wide(alloc, &mut out)?;
    out.flush()?;
    Ok(())
}
