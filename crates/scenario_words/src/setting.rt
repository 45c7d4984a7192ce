//! What lies outside of a command.
use crate::shelf::Shelf;
use anyhow::{Result, bail};
use base_fields::{List, Pair};
use outside::TrickleFiles;
use std::alloc::Global;
use std::mem;

/// The files and the variables of a scenario, and what is to fail.
#[derive(Debug, Drop)]
pub struct Setting {
    /// Where all memory is taken from.
    pub alloc: Global,
    /// The files in memory.
    pub files: Shelf,
    /// Whether a call reads at most one byte of a file.
    pub trickles: bool,
    /// The variables. The first value of a name counts.
    pub vars: List<Pair>,
    /// The lines of the next run that fail, from 0.
    pub failing_lines: Vec<u64>,
}

impl Setting {
    /// No file and no variable, and nothing fails.
    pub fn new(alloc: Global) -> Setting {
        Setting {
            alloc,
            files: Shelf::new(alloc),
            trickles: false,
            vars: List::new(alloc),
            failing_lines: Vec::new(alloc),
        }
    }

    /// The files, called so that a call reads at most one byte. None is here until they are put back.
    pub fn take_trickled(&mut self) -> TrickleFiles<Shelf> {
        let none = Shelf::new(self.alloc);
        let inner = mem::replace(&mut self.files, none);
        TrickleFiles { inner }
    }

    /// Puts the files back.
    pub fn put_back(&mut self, files: TrickleFiles<Shelf>) {
        self.files = files.inner;
    }

    /// Puts a file, and says its length.
    pub fn store(&mut self, name: &str, bytes: &[u8]) -> Result<String> {
        self.files.put(name, bytes)?;
        let len = bytes.len();
        Ok(format!(in self.alloc; "file {name} has {len} bytes")?)
    }

    /// The bytes of a file.
    pub fn copy_of(&self, name: &str) -> Result<Vec<u8>> {
        match self.files.bytes(name) {
            Some(bytes) => Ok(Vec::from_slice(self.alloc, bytes)?),
            None => bail!("no file {name}"),
        }
    }
}
