//! Bytes that a step describes.
use crate::arguments::Arguments;
use crate::shelf::Shelf;
use anyhow::{Result, bail};
use rand_core::utils::NextWord;
use rand_pcg::Lcg64Xsh32;
use std::alloc::Global;

/// A run of bytes.
#[derive(Debug, Drop)]
enum Part {
    /// These bytes.
    Bytes(Vec<u8>),
    /// These bytes so many times.
    Repeated { times: u64, bytes: Vec<u8> },
    /// So many bytes, of which byte i is i modulo a number.
    Counted { count: u64, modulus: u64 },
    /// So many bytes drawn by PCG from a seed, each draw for four of them, the lowest first.
    Drawn { seed: u64, count: u64 },
    /// The bytes of a file.
    File { name: String },
}

/// Bytes as a list of runs.
#[derive(Debug, Drop)]
pub struct Contents {
    parts: Vec<Part>,
}

impl Contents {
    /// Takes all words that are left.
    pub fn read(alloc: Global, words: &mut Arguments) -> Result<Contents> {
        let mut parts = Vec::new(alloc);
        for _ in 0..words.left() {
            if words.is_empty() {
                break;
            }
            parts.push(Part::read(alloc, words)?)?;
        }
        Ok(Contents { parts })
    }

    /// The bytes themselves.
    pub fn bytes(&self, alloc: Global, files: &Shelf) -> Result<Vec<u8>> {
        let mut bytes = Vec::new(alloc);
        for part in &self.parts {
            part.put(files, &mut bytes)?;
        }
        Ok(bytes)
    }
}

impl Part {
    fn read(alloc: Global, words: &mut Arguments) -> Result<Part> {
        let kind = words.text("text, hex, fill, repeat, count, seed or of")?;
        match kind.as_str() {
            "text" => Ok(Part::Bytes(words.bytes("a text")?)),
            "hex" => Part::read_hex(alloc, words),
            "fill" => Part::read_fill(alloc, words),
            "repeat" => Part::read_repeated(words),
            "count" => Part::read_counted(words),
            "seed" => Part::read_drawn(words),
            "of" => Ok(Part::File {
                name: words.text("a file")?,
            }),
            _ => bail!("no such contents: {kind}"),
        }
    }

    fn read_hex(alloc: Global, words: &mut Arguments) -> Result<Part> {
        let digits = words.bytes("hexadecimal digits")?;
        match hex::decode(alloc, digits.as_slice()) {
            Ok(bytes) => Ok(Part::Bytes(bytes)),
            Err(_) => bail!("no pairs of hexadecimal digits"),
        }
    }

    fn read_fill(alloc: Global, words: &mut Arguments) -> Result<Part> {
        let times = words.number("a count")?;
        let byte = words.byte("a byte")?;
        let bytes = vec![in alloc; byte]?;
        Ok(Part::Repeated { times, bytes })
    }

    fn read_repeated(words: &mut Arguments) -> Result<Part> {
        let times = words.number("a count")?;
        let bytes = words.bytes("a text")?;
        Ok(Part::Repeated { times, bytes })
    }

    fn read_counted(words: &mut Arguments) -> Result<Part> {
        let count = words.number("a count")?;
        let modulus = words.number("a modulus")?;
        Ok(Part::Counted { count, modulus })
    }

    fn read_drawn(words: &mut Arguments) -> Result<Part> {
        let seed = words.number("a seed")?;
        let count = words.number("a count")?;
        Ok(Part::Drawn { seed, count })
    }

    /// Puts the run behind the bytes.
    fn put(&self, files: &Shelf, bytes: &mut Vec<u8>) -> Result<()> {
        match self {
            Part::Bytes(run) => bytes.extend_from_slice(run)?,
            Part::Repeated { times, bytes: run } => put_repeated(bytes, *times, run)?,
            Part::Counted { count, modulus } => put_counted(bytes, *count, *modulus)?,
            Part::Drawn { seed, count } => put_drawn(bytes, *seed, *count)?,
            Part::File { name } => match files.bytes(name) {
                Some(run) => bytes.extend_from_slice(run)?,
                None => bail!("no file {name}"),
            },
        }
        Ok(())
    }
}

fn put_repeated(bytes: &mut Vec<u8>, times: u64, run: &[u8]) -> Result<()> {
    for _ in 0..times {
        bytes.extend_from_slice(run)?;
    }
    Ok(())
}

fn put_counted(bytes: &mut Vec<u8>, count: u64, modulus: u64) -> Result<()> {
    if modulus == 0 || modulus > 256 {
        bail!("a modulus is from 1 to 256");
    }
    for i in 0..count {
        bytes.push(u8::try_from(i % modulus).unwrap_or(0))?;
    }
    Ok(())
}

fn put_drawn(bytes: &mut Vec<u8>, seed: u64, count: u64) -> Result<()> {
    let mut generator = Lcg64Xsh32::new(seed, 54);
    let mut left = count;
    for _ in 0..count.div_ceil(4) {
        for byte in generator.next_word().to_le_bytes() {
            if left > 0 {
                bytes.push(byte)?;
                left -= 1;
            }
        }
    }
    Ok(())
}
