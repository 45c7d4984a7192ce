//! The words of a step, taken one after another.
use anyhow::{Context, Result, bail};
use std::alloc::Global;

/// The words of a step that are still to be taken.
#[derive(Debug, Drop)]
pub struct Arguments {
    alloc: Global,
    words: Vec<Vec<u8>>,
    at: usize,
}

impl Arguments {
    /// These words, none of which is taken yet.
    pub fn new(alloc: Global, words: Vec<Vec<u8>>) -> Arguments {
        Arguments {
            alloc,
            words,
            at: 0,
        }
    }

    /// How many words are left.
    pub fn left(&self) -> usize {
        self.words.len().saturating_sub(self.at)
    }

    /// Whether no word is left.
    pub fn is_empty(&self) -> bool {
        self.left() == 0
    }

    /// The next word as bytes. `what` says what it is.
    pub fn bytes(&mut self, what: &str) -> Result<Vec<u8>> {
        let at = self.at;
        self.at = at.saturating_add(1);
        match self.words.get(at) {
            Some(word) => Ok(word.clone()?),
            None => bail!("a word is missing: {what}"),
        }
    }

    /// The next word as text.
    pub fn text(&mut self, what: &str) -> Result<String> {
        let bytes = self.bytes(what)?;
        match String::from_utf8(bytes) {
            Ok(text) => Ok(text),
            Err(_) => bail!("no UTF-8: {what}"),
        }
    }

    /// The next word as a number, decimal or hexadecimal behind `0x`.
    pub fn number(&mut self, what: &str) -> Result<u64> {
        let text = self.text(what)?;
        let number = match text.strip_prefix("0x") {
            Some(digits) => u64::from_str_radix(digits, 16),
            None => text.parse::<u64>(),
        };
        match number {
            Ok(number) => Ok(number),
            Err(_) => bail!("no number: {what}"),
        }
    }

    /// The next word as a number of four bytes.
    pub fn word(&mut self, what: &str) -> Result<u32> {
        let number = self.number(what)?;
        u32::try_from(number).context(format_args!("too large: {what}"))
    }

    /// The next word as a number of one byte.
    pub fn byte(&mut self, what: &str) -> Result<u8> {
        let number = self.number(what)?;
        u8::try_from(number).context(format_args!("too large: {what}"))
    }

    /// The next word as a number of things in memory.
    pub fn count(&mut self, what: &str) -> Result<usize> {
        Ok(self.number(what)? as usize)
    }

    /// The next word as `on` or `off`.
    pub fn truth(&mut self, what: &str) -> Result<bool> {
        let text = self.text(what)?;
        match text.as_str() {
            "on" => Ok(true),
            "off" => Ok(false),
            _ => bail!("neither on nor off: {what}"),
        }
    }

    /// The words that are left, each as text.
    pub fn texts(&mut self, what: &str) -> Result<Vec<String>> {
        let mut texts = Vec::new(self.alloc);
        for _ in 0..self.left() {
            texts.push(self.text(what)?)?;
        }
        Ok(texts)
    }

    /// No word is to be left.
    pub fn end(&self) -> Result<()> {
        if self.is_empty() {
            return Ok(());
        }
        bail!("more words than the step has")
    }
}
