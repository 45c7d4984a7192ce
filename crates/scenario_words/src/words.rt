//! The words of a line.
use anyhow::{Result, bail};
use std::alloc::Global;
use std::mem;

/// Where the next byte of a line stands.
#[derive(Clone, Copy, Debug, PartialEq, Eq)]
enum Stand {
    /// Between words.
    Between,
    /// In a bare word.
    Bare,
    /// In a quoted word.
    Quoted,
    /// Behind a backslash in a quoted word.
    Escaped,
    /// Behind `\x` in a quoted word.
    High,
    /// Behind the first digit of `\xHH`, with its value.
    Low(u8),
}

/// Takes a line's bytes one after another and keeps the words.
#[derive(Debug, Drop)]
struct Splitter {
    alloc: Global,
    words: Vec<Vec<u8>>,
    word: Vec<u8>,
    stand: Stand,
}

/// The words of a line, which stand apart by blanks. A word in double quotes may have blanks or be empty; in it
/// `\n`, `\r`, `\t`, `\"`, `\\` and `\xHH` stand for a byte.
pub fn split(alloc: Global, line: &[u8]) -> Result<Vec<Vec<u8>>> {
    let mut splitter = Splitter {
        alloc,
        words: Vec::new(alloc),
        word: Vec::new(alloc),
        stand: Stand::Between,
    };
    for byte in line {
        splitter.take(*byte)?;
    }
    splitter.finish()
}

impl Splitter {
    fn take(&mut self, byte: u8) -> Result<()> {
        match self.stand {
            Stand::Between => self.take_between(byte),
            Stand::Bare => self.take_bare(byte),
            Stand::Quoted => self.take_quoted(byte),
            Stand::Escaped => self.take_escaped(byte),
            Stand::High => self.take_high(byte),
            Stand::Low(high) => self.take_low(high, byte),
        }
    }

    fn take_between(&mut self, byte: u8) -> Result<()> {
        match byte {
            b' ' | b'\t' | b'\r' => {}
            b'"' => self.stand = Stand::Quoted,
            _ => {
                self.stand = Stand::Bare;
                self.word.push(byte)?;
            }
        }
        Ok(())
    }

    fn take_bare(&mut self, byte: u8) -> Result<()> {
        match byte {
            b' ' | b'\t' | b'\r' => self.end_word(),
            _ => self.put(byte),
        }
    }

    fn take_quoted(&mut self, byte: u8) -> Result<()> {
        match byte {
            b'"' => self.end_word(),
            b'\\' => {
                self.stand = Stand::Escaped;
                Ok(())
            }
            _ => self.put(byte),
        }
    }

    fn take_escaped(&mut self, byte: u8) -> Result<()> {
        self.stand = Stand::Quoted;
        match byte {
            b'n' => self.put(b'\n'),
            b'r' => self.put(b'\r'),
            b't' => self.put(b'\t'),
            b'"' | b'\\' => self.put(byte),
            b'x' => {
                self.stand = Stand::High;
                Ok(())
            }
            _ => bail!("no such escape"),
        }
    }

    fn take_high(&mut self, byte: u8) -> Result<()> {
        self.stand = Stand::Low(digit(byte)?);
        Ok(())
    }

    fn take_low(&mut self, high: u8, byte: u8) -> Result<()> {
        self.stand = Stand::Quoted;
        let low = digit(byte)?;
        self.put(high.wrapping_mul(16) | low)
    }

    fn put(&mut self, byte: u8) -> Result<()> {
        self.word.push(byte)?;
        Ok(())
    }

    fn end_word(&mut self) -> Result<()> {
        let empty = Vec::new(self.alloc);
        let word = mem::replace(&mut self.word, empty);
        self.words.push(word)?;
        self.stand = Stand::Between;
        Ok(())
    }

    fn finish(mut self) -> Result<Vec<Vec<u8>>> {
        match self.stand {
            Stand::Between => {}
            Stand::Bare => self.end_word()?,
            _ => bail!("a quoted word has no end"),
        }
        let Splitter { words, .. } = self;
        Ok(words)
    }
}

/// The value of a hexadecimal digit.
fn digit(byte: u8) -> Result<u8> {
    match byte {
        b'0'..=b'9' => Ok(byte - b'0'),
        b'a'..=b'f' => Ok(byte - b'a' + 10),
        b'A'..=b'F' => Ok(byte - b'A' + 10),
        _ => bail!("no hexadecimal digit"),
    }
}
