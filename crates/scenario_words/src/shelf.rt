//! The files of a scenario: files in memory with their names.
ghost use Rattle.std.specs.Prelude.{◌≤◌, IsTrue, length};
ghost use Rattle.outside.specs.Files.{IsThere, bytes_of};

use anyhow::Result;
use outside::{FileErr, Files, MemFiles, WriteErr};
use std::alloc::Global;
use std::collections::BTreeSet;

/// Files in memory, whose names are kept. Every call is passed on.
#[derive(Debug, Drop)]
pub struct Shelf {
    alloc: Global,
    files: MemFiles,
    names: BTreeSet<String>,
    calls: u64,
}

impl Shelf {
    /// No file at all.
    pub fn new(alloc: Global) -> Shelf {
        Shelf {
            alloc,
            files: MemFiles::new(alloc),
            names: BTreeSet::new(alloc),
            calls: 0,
        }
    }

    /// Makes or replaces a file. It is no call of the files.
    pub fn put(&mut self, name: &str, bytes: &[u8]) -> Result<()> {
        self.names.insert(String::from_str(self.alloc, name)?)?;
        self.files.put(name, bytes)?;
        Ok(())
    }

    /// The bytes of a file.
    pub fn bytes(&self, name: &str) -> Option<&[u8]> {
        self.files.bytes(name)
    }

    /// Whether a file is there and doesn't end before a place.
    pub fn reaches(&self, name: &str, at: u64) -> bool
        ensures { IsTrue result → IsThere (⟦<Shelf as Files>⟧.file self.now) name.now (at ≤ length (bytes_of (⟦<Shelf as Files>⟧.file self.now) name.now)) }
    {
        match self.files.bytes(name) {
            Some(bytes) => at <= bytes.len() as u64,
            None => false,
        }
    }

    /// The names of the files, in order. A file whose making failed isn't one.
    pub fn names(&self) -> Result<Vec<String>> {
        let mut names = Vec::new(self.alloc);
        for name in &self.names {
            if self.files.bytes(name).is_some() {
                names.push(name.clone()?)?;
            }
        }
        Ok(names)
    }

    /// Removes a file. No later call fails but those that are said from now on.
    pub fn remove(&mut self, name: &str) -> Result<()> {
        let mut left = Shelf::new(self.alloc);
        for other in self.names()? {
            if other.as_str() != name {
                left.put(&other, self.bytes(&other).unwrap_or(&[]))?;
            }
        }
        *self = left;
        Ok(())
    }

    /// Lets a call fail: the next one is number 0.
    pub fn fail(&mut self, call: u64) -> Result<()> {
        self.files.fail(self.calls.saturating_add(call))?;
        Ok(())
    }
}

impl Files for Shelf {
    ghost told = { Unit {0} };

    ghost file = { λ s. ⟦<MemFiles as Files>⟧.file s.files };

    ghost counts = { λ s. ⟦<MemFiles as Files>⟧.counts s.files };

    ghost counts_end = { λ s. record { faults = s.files.faults_end; absences = s.files.files.absences_end; ends = s.files.files.ends_end } };

    fn length(&mut self, name: &str) -> Result<u64, FileErr> {
        self.calls = self.calls.saturating_add(1);
        self.files.length(name)
    }

    fn read_at(&mut self, name: &str, off: u64, buf: &mut [u8]) -> Result<usize, FileErr> {
        self.calls = self.calls.saturating_add(1);
        self.files.read_at(name, off, buf)
    }

    fn create(&mut self, name: &str, len: u64) -> Result<(), WriteErr> {
        self.calls = self.calls.saturating_add(1);
        let own = String::from_str(self.alloc, name)?;
        self.names.insert(own)?;
        self.files.create(name, len)
    }

    fn write_at(&mut self, name: &str, off: u64, bytes: &[u8]) -> Result<(), WriteErr> {
        self.calls = self.calls.saturating_add(1);
        self.files.write_at(name, off, bytes)
    }
}
