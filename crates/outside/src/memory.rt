ghost use Rattle.std.specs.Prelude.{◌≡◌, ◌<◌, ◌≤◌, ◌↔◌, ℕ, Contains, replicate, List, Some, None, option_map, option_copied, IfOk, OnOk, OnErr, IsErrOf, length, vec_len};
ghost use Rattle.std.specs.BTreeMap.{get_by_text};
ghost use Rattle.base_fields.specs.Fields.{written};
ghost use Rattle.outside.specs.Calls.{IsNext, unused, listing};
ghost use Rattle.outside.specs.Counts.{IsCount, NoneFell, Rose};
ghost use Rattle.outside.specs.Files.{Reads, one_byte, OthersStay, IsReadAt, IsLengthOf, IsReadOf, IsThere, bytes_of};

use crate::failures::Failures;
use crate::{FileErr, Files, WriteErr};
use base_fields::NoMemory;
use std::alloc::{AllocError, Global};
use std::collections::BTreeMap;

/// Files in memory of which no call fails, but for want of memory where one is made or written.
#[derive(Debug, Drop)]
pub struct SureFiles {
    alloc: Global,
    files: BTreeMap<String, Vec<u8>>,
    absences: u64,
    ends: u64,
    ghost absences_end: { IsCount absences },
    ghost ends_end: { IsCount ends },
}

impl SureFiles {
    /// No file at all. Takes no memory.
    pub fn new(alloc: Global) -> SureFiles
        ensures empty { (name : List ℕ) → ⟦<SureFiles as Files>⟧.file result name ≡ None }
        ensures counts { ⟦<SureFiles as Files>⟧.counts result ≡ record { faults = 0; absences = 0; ends = 0 } }
    {
        SureFiles {
            alloc,
            files: BTreeMap::new(alloc),
            absences: 0,
            ends: 0,
        }
    }

    /// Makes or replaces a file with these bytes.
    pub fn put(&mut self, name: &str, bytes: &[u8]) -> Result<(), NoMemory>
        ensures ok { OnOk result (⟦<SureFiles as Files>⟧.file self.new name.now ≡ Some bytes.now) }
        ensures others { OthersStay name.now (⟦<SureFiles as Files>⟧.file self.old) (⟦<SureFiles as Files>⟧.file self.new) }
        ensures err { OnErr result (⟦<SureFiles as Files>⟧.file self.new ≡ ⟦<SureFiles as Files>⟧.file self.old) }
        ensures same_counts { ⟦<SureFiles as Files>⟧.counts self.new ≡ ⟦<SureFiles as Files>⟧.counts self.old }
    {
        let copy = Vec::from_slice(self.alloc, bytes)?;
        self.set(name, copy)?;
        Ok(())
    }

    /// The bytes of a file.
    pub fn bytes(&self, name: &str) -> Option<&[u8]>
        ensures { option_copied result ≡ ⟦<SureFiles as Files>⟧.file self.now name.now }
    {
        match self.files.get(name) {
            Some(bytes) => Some(bytes.as_slice()),
            None => None,
        }
    }

    fn set(&mut self, name: &str, bytes: Vec<u8>) -> Result<(), AllocError>
        ensures ok { OnOk result (⟦<SureFiles as Files>⟧.file self.new name.now ≡ Some bytes.items) }
        ensures others { OthersStay name.now (⟦<SureFiles as Files>⟧.file self.old) (⟦<SureFiles as Files>⟧.file self.new) }
        ensures err { OnErr result (⟦<SureFiles as Files>⟧.file self.new ≡ ⟦<SureFiles as Files>⟧.file self.old) }
        ensures same_counts { ⟦<SureFiles as Files>⟧.counts self.new ≡ ⟦<SureFiles as Files>⟧.counts self.old }
    {
        let key = String::from_str(self.alloc, name)?;
        self.files.insert(key, bytes)?;
        Ok(())
    }
}

impl Files for SureFiles {
    ghost use Rattle.std.proofs.Common.{lit≤};

    ghost told = { Unit {0} };

    ghost file = { λ s. λ name. option_map (λ v. v.items) (get_by_text s.files name) };

    ghost counts = { λ s. record { faults = 0; absences = s.absences; ends = s.ends } };

    ghost counts_end = { λ s. record { faults = lit≤ tt; absences = s.absences_end; ends = s.ends_end } };

    fn length(&mut self, name: &str) -> Result<u64, FileErr> {
        match self.files.get(name) {
            Some(bytes) => Ok(bytes.len() as u64),
            None => {
                self.absences = self.absences.saturating_add(1);
                Err(FileErr::Missing)
            }
        }
    }

    fn read_at(&mut self, name: &str, off: u64, buf: &mut [u8]) -> Result<usize, FileErr> {
        let Some(bytes) = self.files.get(name) else {
            self.absences = self.absences.saturating_add(1);
            return Err(FileErr::Missing);
        };
        let n = copy_from(bytes.as_slice(), off, buf);
        if n == 0 {
            self.ends = self.ends.saturating_add(1);
        }
        Ok(n)
    }

    fn create(&mut self, name: &str, len: u64) -> Result<(), WriteErr> {
        let zeros = vec![in self.alloc; 0u8; len as usize]?;
        self.set(name, zeros)?;
        Ok(())
    }

    fn write_at(&mut self, name: &str, off: u64, bytes: &[u8]) -> Result<(), WriteErr> {
        match self.files.get_mut(name) {
            Some(file) => overwrite(file, off as usize, bytes)?,
            None => unreachable!(),
        }
        Ok(())
    }
}

/// Files in memory of which the listed calls fail.
#[derive(Debug, Drop)]
pub struct MemFiles {
    files: SureFiles,
    failures: Failures,
    ghost faults_end: { IsCount failures.faults },
}

impl MemFiles {
    ghost use Rattle.outside.specs.Memory.{calls_of};

    /// No file at all, and no call that fails. Takes no memory.
    pub fn new(alloc: Global) -> MemFiles
        ensures empty { (name : List ℕ) → ⟦<MemFiles as Files>⟧.file result name ≡ None }
        ensures counts { ⟦<MemFiles as Files>⟧.counts result ≡ record { faults = 0; absences = 0; ends = 0 } }
        ensures calls { calls_of result ≡ unused }
    {
        MemFiles {
            files: SureFiles::new(alloc),
            failures: Failures::new(alloc),
        }
    }

    /// Makes or replaces a file with these bytes. This is no call that is numbered.
    pub fn put(&mut self, name: &str, bytes: &[u8]) -> Result<(), NoMemory>
        ensures ok { OnOk result (⟦<MemFiles as Files>⟧.file self.new name.now ≡ Some bytes.now) }
        ensures others { OthersStay name.now (⟦<MemFiles as Files>⟧.file self.old) (⟦<MemFiles as Files>⟧.file self.new) }
        ensures err { OnErr result (⟦<MemFiles as Files>⟧.file self.new ≡ ⟦<MemFiles as Files>⟧.file self.old) }
        ensures same_counts { ⟦<MemFiles as Files>⟧.counts self.new ≡ ⟦<MemFiles as Files>⟧.counts self.old }
        ensures same_calls { calls_of self.new ≡ calls_of self.old }
    {
        self.files.put(name, bytes)?;
        Ok(())
    }

    /// Lets the call of this number fail. The calls that read, make or write a file are numbered from 0 from the
    /// making of the object.
    pub fn fail(&mut self, call: u64) -> Result<(), NoMemory>
        ensures ok { OnOk result (calls_of self.new ≡ listing (calls_of self.old) call) }
        ensures err { OnErr result (calls_of self.new ≡ calls_of self.old) }
        ensures same_files { ⟦<MemFiles as Files>⟧.file self.new ≡ ⟦<MemFiles as Files>⟧.file self.old }
        ensures same_counts { ⟦<MemFiles as Files>⟧.counts self.new ≡ ⟦<MemFiles as Files>⟧.counts self.old }
    {
        self.failures.list(call)?;
        Ok(())
    }

    /// The bytes of a file.
    pub fn bytes(&self, name: &str) -> Option<&[u8]>
        ensures { option_copied result ≡ ⟦<MemFiles as Files>⟧.file self.now name.now }
    {
        self.files.bytes(name)
    }
}

impl Files for MemFiles {
    ghost use Rattle.outside.specs.Memory.{calls_of};

    ghost told = { Unit {0} };

    ghost file = { λ m. ⟦<SureFiles as Files>⟧.file m.files };

    ghost counts = { λ m. record (⟦<SureFiles as Files>⟧.counts m.files) { faults = m.failures.faults } };

    ghost takes = { λ old _ new. IsNext (calls_of old) (calls_of new) };

    ghost counts_end = { λ m. record { faults = m.faults_end; absences = m.files.absences_end; ends = m.files.ends_end } };

    fn length(&mut self, name: &str) -> Result<u64, FileErr>
        ensures none_fell { NoneFell (⟦<MemFiles as Files>⟧.counts self.old) (⟦<MemFiles as Files>⟧.counts self.new) }
        ensures failed { IsErrOf result FileErr.Failed → Rose (⟦<MemFiles as Files>⟧.counts self.old).faults (⟦<MemFiles as Files>⟧.counts self.new).faults }
        ensures missing { IsErrOf result FileErr.Missing → Rose (⟦<MemFiles as Files>⟧.counts self.old).absences (⟦<MemFiles as Files>⟧.counts self.new).absences }
        ensures same_files { ⟦<MemFiles as Files>⟧.file self.new ≡ ⟦<MemFiles as Files>⟧.file self.old }
        ensures exact { IsLengthOf (⟦<MemFiles as Files>⟧.file self.old name.now) result }
        ensures numbered { IsNext (calls_of self.old) (calls_of self.new) }
        ensures listed { IsErrOf result FileErr.Failed ↔ Contains (calls_of self.old).failing (calls_of self.old).next }
    {
        if self.failures.fails() {
            return Err(FileErr::Failed);
        }
        self.files.length(name)
    }

    fn read_at(&mut self, name: &str, off: u64, buf: &mut [u8]) -> Result<usize, FileErr>
        requires { 0 < length buf.old }
        ensures none_fell { NoneFell (⟦<MemFiles as Files>⟧.counts self.old) (⟦<MemFiles as Files>⟧.counts self.new) }
        ensures failed { IsErrOf result FileErr.Failed → Rose (⟦<MemFiles as Files>⟧.counts self.old).faults (⟦<MemFiles as Files>⟧.counts self.new).faults }
        ensures missing { IsErrOf result FileErr.Missing → Rose (⟦<MemFiles as Files>⟧.counts self.old).absences (⟦<MemFiles as Files>⟧.counts self.new).absences }
        ensures ended { result ≡ Ok 0 → Rose (⟦<MemFiles as Files>⟧.counts self.old).ends (⟦<MemFiles as Files>⟧.counts self.new).ends }
        ensures within { IfOk result (λ n. n ≤ length buf.old) }
        ensures same_files { ⟦<MemFiles as Files>⟧.file self.new ≡ ⟦<MemFiles as Files>⟧.file self.old }
        ensures there { IsReadOf (⟦<MemFiles as Files>⟧.file self.old name.now) off buf.new result }
        ensures numbered { IsNext (calls_of self.old) (calls_of self.new) }
        ensures listed { IsErrOf result FileErr.Failed ↔ Contains (calls_of self.old).failing (calls_of self.old).next }
    {
        if self.failures.fails() {
            return Err(FileErr::Failed);
        }
        self.files.read_at(name, off, buf)
    }

    fn create(&mut self, name: &str, len: u64) -> Result<(), WriteErr>
        ensures none_fell { NoneFell (⟦<MemFiles as Files>⟧.counts self.old) (⟦<MemFiles as Files>⟧.counts self.new) }
        ensures failed { IsErrOf result WriteErr.Failed → Rose (⟦<MemFiles as Files>⟧.counts self.old).faults (⟦<MemFiles as Files>⟧.counts self.new).faults }
        ensures others { OthersStay name.now (⟦<MemFiles as Files>⟧.file self.old) (⟦<MemFiles as Files>⟧.file self.new) }
        ensures made { OnOk result (⟦<MemFiles as Files>⟧.file self.new name.now ≡ Some (replicate len 0)) }
        ensures numbered { IsNext (calls_of self.old) (calls_of self.new) }
        ensures listed { IsErrOf result WriteErr.Failed ↔ Contains (calls_of self.old).failing (calls_of self.old).next }
    {
        if self.failures.fails() {
            return Err(WriteErr::Failed);
        }
        self.files.create(name, len)
    }

    fn write_at(&mut self, name: &str, off: u64, bytes: &[u8]) -> Result<(), WriteErr>
        requires { IsThere (⟦<MemFiles as Files>⟧.file self.old) name.now (off ≤ length (bytes_of (⟦<MemFiles as Files>⟧.file self.old) name.now)) }
        ensures none_fell { NoneFell (⟦<MemFiles as Files>⟧.counts self.old) (⟦<MemFiles as Files>⟧.counts self.new) }
        ensures failed { IsErrOf result WriteErr.Failed → Rose (⟦<MemFiles as Files>⟧.counts self.old).faults (⟦<MemFiles as Files>⟧.counts self.new).faults }
        ensures others { OthersStay name.now (⟦<MemFiles as Files>⟧.file self.old) (⟦<MemFiles as Files>⟧.file self.new) }
        ensures wrote { OnOk result (⟦<MemFiles as Files>⟧.file self.new name.now ≡ Some (written (bytes_of (⟦<MemFiles as Files>⟧.file self.old) name.now) off bytes.now)) }
        ensures numbered { IsNext (calls_of self.old) (calls_of self.new) }
        ensures listed { IsErrOf result WriteErr.Failed ↔ Contains (calls_of self.old).failing (calls_of self.old).next }
    {
        if self.failures.fails() {
            return Err(WriteErr::Failed);
        }
        self.files.write_at(name, off, bytes)
    }
}

/// Files of which one call reads at most one byte. Each call is passed on once.
#[derive(Debug, Drop)]
pub struct TrickleFiles<F: Files> {
    pub inner: F,
}

impl<F: Files> Files for TrickleFiles<F> {
    ghost told = { F.told };

    ghost file = { λ t. F.file t.inner };

    ghost counts = { λ t. F.counts t.inner };

    ghost takes = { λ old asked new. F.takes old.inner (one_byte asked) new.inner };

    ghost counts_end = { λ t. F.counts_end t.inner };

    fn length(&mut self, name: &str) -> Result<u64, FileErr> {
        self.inner.length(name)
    }

    fn read_at(&mut self, name: &str, off: u64, buf: &mut [u8]) -> Result<usize, FileErr>
        requires { 0 < length buf.old }
        ensures none_fell { NoneFell (F.counts self.old.inner) (F.counts self.new.inner) }
        ensures failed { IsErrOf result FileErr.Failed → Rose (F.counts self.old.inner).faults (F.counts self.new.inner).faults }
        ensures missing { IsErrOf result FileErr.Missing → Rose (F.counts self.old.inner).absences (F.counts self.new.inner).absences }
        ensures ended { result ≡ Ok 0 → Rose (F.counts self.old.inner).ends (F.counts self.new.inner).ends }
        ensures within { IfOk result (λ n. n ≤ length buf.old) }
        ensures same_files { F.file self.new.inner ≡ F.file self.old.inner }
        ensures there { F.told → IsReadOf (F.file self.old.inner name.now) off buf.new result }
        ensures once { F.takes self.old.inner (Reads name.now off 1) self.new.inner }
        ensures one { IfOk result (λ n. n ≤ 1) }
    {
        self.inner.read_at(name, off, &mut buf[..1])
    }

    fn create(&mut self, name: &str, len: u64) -> Result<(), WriteErr> {
        self.inner.create(name, len)
    }

    fn write_at(&mut self, name: &str, off: u64, bytes: &[u8]) -> Result<(), WriteErr> {
        self.inner.write_at(name, off, bytes)
    }
}

/// Copies the bytes from an offset on to the front of a buffer, as many as there are and have room, and answers
/// how many.
fn copy_from(bytes: &[u8], off: u64, buf: &mut [u8]) -> usize
    requires { 0 < length buf.old }
    ensures read { IsReadAt bytes.now off result buf.new }
    ensures within { result ≤ length buf.old }
{
    if off >= bytes.len() as u64 {
        return 0;
    }
    let rest = &bytes[off as usize..];
    let n = rest.len().min(buf.len());
    buf[..n].copy_from_slice(&rest[..n]);
    n
}

/// Puts bytes in the place of those at `off`, past the end too. Keeps the vector as it was where memory is
/// refused.
fn overwrite(file: &mut Vec<u8>, off: usize, bytes: &[u8]) -> Result<(), AllocError>
    requires { off ≤ vec_len file.old }
    ensures ok { OnOk result (file.new.items ≡ written file.old.items off bytes.now) }
    ensures err { OnErr result (file.new.items ≡ file.old.items) }
{
    let inside = bytes.len().min(file.len() - off);
    file.extend_from_slice(&bytes[inside..])?;
    file[off..off + inside].copy_from_slice(&bytes[..inside]);
    Ok(())
}
