ghost use Rattle.std.specs.Prelude.{◌≤◌, length};

use std::alloc::Global;
use std::cell::Cell;
use std::io;
use std::io::ErrorKind;

/// The most bytes that a scripted file has.
pub const SIZE: usize = 16;

/// What a scripted file holds, where it is there.
#[derive(Clone, Copy, Drop)]
pub struct Content {
    pub there: bool,
    pub len: usize,
    pub bytes: [u8; SIZE],
}

impl Content {
    pub fn absent() -> Content {
        Content {
            there: false,
            len: 0,
            bytes: [0; SIZE],
        }
    }

    pub fn of(bytes: &[u8]) -> Content {
        let mut content = Content {
            there: true,
            len: 0,
            bytes: [0; SIZE],
        };
        let _ = content.put(0, bytes, SIZE);
        content
    }

    /// Puts bytes at an offset, so many at most, and answers how many.
    pub fn put(&mut self, at: u64, bytes: &[u8], most: usize) -> usize
        ensures { result ≤ length bytes.now }
    {
        let from = at.min(SIZE as u64) as usize;
        let n = bytes.len().min(most).min(SIZE - from);
        self.bytes[from..from + n].copy_from_slice(&bytes[..n]);
        self.len = self.len.max(from + n);
        n
    }

    /// Gives the bytes from an offset on, so many at most, and answers how many.
    pub fn give(&self, at: u64, buf: &mut [u8], most: usize) -> usize
        ensures { result ≤ length buf.old }
    {
        let len = self.len.min(SIZE);
        let from = at.min(len as u64) as usize;
        let n = (len - from).min(buf.len()).min(most);
        buf[..n].copy_from_slice(&self.bytes[from..from + n]);
        n
    }
}

/// What the runtime does: two files and the folder in which they stand, which call fails or is interrupted, how much
/// one transfer moves, and what was counted. The calls that open, read, write, sync and ask for a length are numbered
/// from 0.
#[derive(Drop)]
pub struct Script {
    pub alloc: Global,
    pub target: Cell<Content>,
    pub journal: Cell<Content>,
    pub calls: Cell<u64>,
    pub fails: Cell<u64>,
    pub interrupted: Cell<u64>,
    pub most: Cell<usize>,
    pub protected: Cell<bool>,
    pub opened: Cell<u64>,
    pub reads: Cell<u64>,
    pub target_syncs: Cell<u64>,
    pub journal_syncs: Cell<u64>,
    pub folder_syncs: Cell<u64>,
}

impl Script {
    pub fn new(alloc: Global, target: Content, journal: Content) -> Script {
        Script {
            alloc,
            target: Cell::new(target),
            journal: Cell::new(journal),
            calls: Cell::new(0),
            fails: Cell::new(u64::MAX),
            interrupted: Cell::new(u64::MAX),
            most: Cell::new(SIZE),
            protected: Cell::new(false),
            opened: Cell::new(0),
            reads: Cell::new(0),
            target_syncs: Cell::new(0),
            journal_syncs: Cell::new(0),
            folder_syncs: Cell::new(0),
        }
    }

    /// Takes a number, and fails or is interrupted where that is the call's.
    pub fn step(&self) -> io::Result<()> {
        let call = self.calls.get();
        self.calls.set(call.saturating_add(1));
        if call == self.fails.get() {
            return Err(io::Error::from(ErrorKind::Other));
        }
        if call == self.interrupted.get() {
            return Err(io::Error::from(ErrorKind::Interrupted));
        }
        Ok(())
    }

    /// Lets the next call fail.
    pub fn fail_next(&self) {
        self.fails.set(self.calls.get());
    }
}

/// Counts one more.
pub fn count(cell: &Cell<u64>) {
    cell.set(cell.get().saturating_add(1));
}
