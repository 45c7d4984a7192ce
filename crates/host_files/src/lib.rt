//! Real files by their paths, and standard output.
#![tactic(auto)]

ghost use Rattle.std.specs.Prelude.{◌≡◌, ◌≤◌, None, IfOk, length};
ghost use Rattle.outside.specs.Counts.{IsCount, NoneFell, Rose};

use outside::{FileErr, Files, PrintErr, Printer, WriteErr};
use std::fs::{OpenFile, OpenOptions};
use std::io::{ErrorKind, Seek, SeekFrom};
use std::os::unix::fs::{FileExt, FileTypeExt};
use std::{fs, io, rt};

/// The real files and block devices, each by its path. They tell nothing of what they hold. The last that was read
/// and the last that was written stay open.
#[derive(Drop)]
pub struct HostFiles<R: rt::Files + AllocGlobal> {
    rt: R,
    read: Option<Open<R::File>>,
    written: Option<Open<R::File>>,
    tally: Tally,
}

/// An open file, and its name.
#[derive(Drop)]
struct Open<F> {
    file: F,
    name: String,
}

/// What was counted of the real files.
#[derive(Debug, Drop)]
struct Tally {
    faults: u64,
    absences: u64,
    ends: u64,
    ghost faults_end: { IsCount faults },
    ghost absences_end: { IsCount absences },
    ghost ends_end: { IsCount ends },
}

impl Tally {
    ghost use Rattle.host_files.specs.Tally.{counts_of};

    fn new() -> Tally
        ensures { counts_of result ≡ record { faults = 0; absences = 0; ends = 0 } }
    {
        Tally {
            faults: 0,
            absences: 0,
            ends: 0,
        }
    }

    /// Counts why a question was refused: there is no file of that name, or any other error.
    fn refusal(&mut self, error: ErrorKind) -> FileErr
        ensures none_fell { NoneFell (counts_of self.old) (counts_of self.new) }
        ensures failed { result ≡ FileErr.Failed → Rose self.old.faults self.new.faults }
        ensures missing { result ≡ FileErr.Missing → Rose self.old.absences self.new.absences }
    {
        if error == ErrorKind::NotFound {
            self.absences = self.absences.saturating_add(1);
            FileErr::Missing
        } else {
            self.faults = self.faults.saturating_add(1);
            FileErr::Failed
        }
    }

    /// Counts why a file was not made or written, but for want of memory.
    fn write_refusal(&mut self, error: ErrorKind) -> WriteErr
        ensures none_fell { NoneFell (counts_of self.old) (counts_of self.new) }
        ensures failed { result ≡ WriteErr.Failed → Rose self.old.faults self.new.faults }
    {
        if error == ErrorKind::OutOfMemory {
            WriteErr::NoMemory
        } else {
            self.faults = self.faults.saturating_add(1);
            WriteErr::Failed
        }
    }

    /// Counts a read at or past an end.
    fn end(&mut self)
        ensures none_fell { NoneFell (counts_of self.old) (counts_of self.new) }
        ensures ended { Rose self.old.ends self.new.ends }
    {
        self.ends = self.ends.saturating_add(1);
    }
}

impl<R: rt::Files + AllocGlobal> HostFiles<R>
where
    R::File: FileExt,
{
    /// The files that the runtime reaches. Touches none.
    pub fn new(rt: R) -> HostFiles<R>
        ensures { ⟦<HostFiles<R> as Files>⟧.counts result ≡ record { faults = 0; absences = 0; ends = 0 } }
    {
        HostFiles {
            rt,
            read: None,
            written: None,
            tally: Tally::new(),
        }
    }
}

impl<R: rt::Files + AllocGlobal> Files for HostFiles<R>
where
    R::File: FileExt,
{
    ghost use Rattle.host_files.specs.Tally.{counts_of};

    ghost told = { ⊥ };

    ghost file = { λ _ _. None };

    ghost counts = { λ h. counts_of h.tally };

    ghost counts_end = { λ h. record { faults = h.tally.faults_end; absences = h.tally.absences_end; ends = h.tally.ends_end } };

    fn length(&mut self, name: &str) -> Result<u64, FileErr> {
        match length_of(&self.rt, &mut self.read, name) {
            Ok(len) => Ok(len),
            Err(e) => Err(self.tally.refusal(e.kind())),
        }
    }

    fn read_at(&mut self, name: &str, off: u64, buf: &mut [u8]) -> Result<usize, FileErr> {
        match read_from(&self.rt, &mut self.read, name, off, buf) {
            Ok(0) => {
                self.tally.end();
                Ok(0)
            }
            Ok(n) => Ok(n),
            Err(e) => Err(self.tally.refusal(e.kind())),
        }
    }

    fn create(&mut self, name: &str, len: u64) -> Result<(), WriteErr> {
        self.read = None;
        match make(&self.rt, &mut self.written, name, len) {
            Ok(()) => Ok(()),
            Err(e) => Err(self.tally.write_refusal(e.kind())),
        }
    }

    fn write_at(&mut self, name: &str, off: u64, bytes: &[u8]) -> Result<(), WriteErr> {
        match write_to(&self.rt, &mut self.written, name, off, bytes) {
            Ok(()) => Ok(()),
            Err(e) => Err(self.tally.write_refusal(e.kind())),
        }
    }
}

/// Opens a file as said, and keeps it in place of the one before. Does nothing where it is that one.
fn opened<R: rt::Files + AllocGlobal>(
    rt: &R,
    kept: &mut Option<Open<R::File>>,
    how: &OpenOptions,
    name: &str,
) -> io::Result<()> {
    match kept {
        Some(open) if open.name.as_str() == name => return Ok(()),
        _ => *kept = None,
    }
    check_kind(rt, how, name)?;
    let file = how.open(rt, name)?;
    let name = String::from_str(rt.alloc(), name)?;
    *kept = Some(Open { file, name });
    Ok(())
}

/// Refuses what isn't a file or a block device, before it is opened. A name that isn't there may be one that is made.
fn check_kind<R: rt::Files>(rt: &R, how: &OpenOptions, name: &str) -> io::Result<()> {
    match fs::metadata(rt, name) {
        Ok(found) if found.is_file() || found.file_type().is_block_device() => Ok(()),
        Ok(_) => Err(io::Error::from(ErrorKind::InvalidInput)),
        Err(e) if e.kind() == ErrorKind::NotFound && how.asks_create() => Ok(()),
        Err(e) => Err(e),
    }
}

/// The place of the file's end, which a block device has too where its metadata says 0.
fn length_of<R: rt::Files + AllocGlobal>(
    rt: &R,
    kept: &mut Option<Open<R::File>>,
    name: &str,
) -> io::Result<u64> {
    opened(rt, kept, OpenOptions::new().read(true), name)?;
    match kept {
        Some(open) => open.file.seek(SeekFrom::End(0)),
        None => Err(io::Error::from(ErrorKind::Other)),
    }
}

fn read_from<R: rt::Files + AllocGlobal>(
    rt: &R,
    kept: &mut Option<Open<R::File>>,
    name: &str,
    off: u64,
    buf: &mut [u8],
) -> io::Result<usize>
where
    R::File: FileExt,
    ensures { IfOk result (λ n. n ≤ length buf.old) }
{
    opened(rt, kept, OpenOptions::new().read(true), name)?;
    match kept {
        Some(open) => read_whole(&open.file, off, buf),
        None => Err(io::Error::from(ErrorKind::Other)),
    }
}

/// Reads until the buffer is full or the file ends, and answers how many bytes. No file reaches past the greatest
/// offset of the system, 2^63 - 1.
fn read_whole<F: FileExt>(file: &F, off: u64, buf: &mut [u8]) -> io::Result<usize>
    ensures { IfOk result (λ n. n ≤ length buf.old) }
{
    let mut done = 0;
    for _ in 0..u64::MAX {
        let at = off.saturating_add(done as u64);
        if done == buf.len() || at > i64::MAX as u64 {
            return Ok(done);
        }
        match file.read_at(&mut buf[done..], at) {
            Ok(0) => return Ok(done),
            Ok(n) => done += n,
            Err(e) if e.kind() == ErrorKind::Interrupted => {}
            Err(e) => return Err(e),
        }
    }
    Err(io::Error::from(ErrorKind::Interrupted))
}

fn make<R: rt::Files + AllocGlobal>(
    rt: &R,
    kept: &mut Option<Open<R::File>>,
    name: &str,
    len: u64,
) -> io::Result<()> {
    *kept = None;
    let mut how = OpenOptions::new();
    how.write(true).create(true).truncate(true);
    opened(rt, kept, &how, name)?;
    match kept {
        Some(open) => open.file.set_len(len),
        None => Err(io::Error::from(ErrorKind::Other)),
    }
}

fn write_to<R: rt::Files + AllocGlobal>(
    rt: &R,
    kept: &mut Option<Open<R::File>>,
    name: &str,
    off: u64,
    bytes: &[u8],
) -> io::Result<()>
where
    R::File: FileExt,
{
    opened(rt, kept, OpenOptions::new().write(true), name)?;
    match kept {
        Some(open) => open.file.write_all_at(bytes, off),
        None => Err(io::Error::from(ErrorKind::Other)),
    }
}

/// Standard output, line by line. It tells no line.
#[derive(Drop)]
pub struct HostPrinter<R: Print + AllocGlobal> {
    rt: R,
    line: Vec<u8>,
    faults: u64,
    ghost faults_end: { IsCount faults },
}

impl<R: Print + AllocGlobal> HostPrinter<R> {
    /// The runtime's standard output. Writes nothing, and takes no memory.
    pub fn new(rt: R) -> HostPrinter<R>
        ensures { ⟦<HostPrinter<R> as Printer>⟧.faults result ≡ 0 }
    {
        let line = Vec::new(rt.alloc());
        HostPrinter {
            rt,
            line,
            faults: 0,
        }
    }
}

impl<R: Print + AllocGlobal> Printer for HostPrinter<R> {
    ghost lines = { λ _. None };

    ghost faults = { λ p. p.faults };

    /// Writes the bytes, which may end inside a character, and an LF, in one write. Want of memory is a failure.
    fn line(&mut self, bytes: &[u8]) -> Result<(), PrintErr> {
        match write_line(&self.rt, &mut self.line, bytes) {
            Ok(()) => Ok(()),
            Err(_) => {
                self.faults = self.faults.saturating_add(1);
                Err(PrintErr)
            }
        }
    }
}

fn write_line<R: Print>(rt: &R, line: &mut Vec<u8>, bytes: &[u8]) -> io::Result<()> {
    line.clear();
    line.extend_from_slice(bytes)?;
    line.push(b'\n')?;
    rt.write_all(line.as_slice())
}
