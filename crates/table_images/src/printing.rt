//! An image as lines of text.
use std::io::{self, Write};

/// The line that begins an image of so many bytes.
pub fn image<W: Write>(out: &mut W, name: &str, size: u64) -> io::Result<()> {
    writeln!(out, "image {name} {size}")
}

/// The bytes from an offset on.
pub fn part<W: Write>(out: &mut W, at: u64, bytes: &[u8]) -> io::Result<()> {
    let mut at = at;
    for row in bytes.chunks(16) {
        if row.iter().any(|byte| *byte != 0) {
            line(out, at, row)?;
        }
        at = at.saturating_add(16);
    }
    Ok(())
}

fn line<W: Write>(out: &mut W, at: u64, row: &[u8]) -> io::Result<()> {
    write!(out, "{at} ")?;
    for byte in row {
        write!(out, "{byte:02x}")?;
    }
    writeln!(out)
}
