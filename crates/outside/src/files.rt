ghost use Rattle.std.specs.Prelude.{◌≡◌, ℕ, ◌+◌, ◌<◌, ◌≤◌, List, length, IfOk, OnOk, IsErrOf, Some, replicate};
ghost use Rattle.base_fields.specs.Fields.{written};
ghost use Rattle.outside.specs.Counts.{AreCounts, Counts, NoneFell, Rose};
ghost use Rattle.outside.specs.Files.{Asked, Length, Reads, Creates, Writes, Tree, IsThere, IsLengthOf, IsReadOf, OthersStay, bytes_of};

use std::alloc::{AllocError, AllocFailed};

/// Why a file's length or bytes were not given.
#[derive(Clone, Copy, Debug, PartialEq, Eq)]
pub enum FileErr {
    /// There is no file of that name.
    Missing,
    /// The call failed.
    Failed,
}

/// Why a file was not made or written.
#[derive(Clone, Copy, Debug, PartialEq, Eq)]
pub enum WriteErr {
    /// The call failed.
    Failed,
    /// Memory was refused.
    NoMemory,
}

impl From<AllocError> for WriteErr {
    ghost use Rattle.std.specs.Prelude.{◌≡◌};
    ghost use Rattle.outside.specs.declared.files.WriteErr.TheVariants.{NoMemory};

    ghost from_gives = { λ _ e. e ≡ NoMemory };

    fn from(_: AllocError) -> WriteErr {
        WriteErr::NoMemory
    }
}

impl<T: Drop> From<AllocFailed<T>> for WriteErr {
    ghost use Rattle.std.specs.Prelude.{◌≡◌};
    ghost use Rattle.outside.specs.declared.files.WriteErr.TheVariants.{NoMemory};

    ghost from_gives = { λ _ e. e ≡ NoMemory };

    fn from(_: AllocFailed<T>) -> WriteErr {
        WriteErr::NoMemory
    }
}

/// Why an image was not made of its parts.
#[derive(Clone, Copy, Debug, PartialEq, Eq)]
pub enum ComposeFault {
    /// The file of that part, counted from 0, isn't there.
    Missing { part: u32 },
    /// A call on the files failed.
    FileFault,
    /// The file of that part ends at or before the byte at `at`, which is needed.
    SourceShort { part: u32, at: u64 },
    /// Memory was refused.
    NoMemory,
}

/// Files by name. Where the type tells them, contracts see what stands under each name. A failure is answered
/// only where its count rose.
pub trait Files {
    /// Holds of a type whose files are known.
    ghost told: { Type 0 };

    /// What stands under each name, where it is told.
    ghost file: { Self → Tree };

    /// How many calls failed, found no file, and read at or past an end.
    ghost counts: { Self → Counts };

    /// How one call leaves the object. So an adapter can say that it passes each call on, once.
    ghost takes: { Self → Asked → Self → Type 0 } = { λ _ _ _. Unit {0} };

    /// The length of a file in bytes.
    fn length(&mut self, name: &str) -> Result<u64, FileErr>
        ensures none_fell { NoneFell (counts self.old) (counts self.new) }
        ensures failed { IsErrOf result FileErr.Failed → Rose (counts self.old).faults (counts self.new).faults }
        ensures missing { IsErrOf result FileErr.Missing → Rose (counts self.old).absences (counts self.new).absences }
        ensures same_files { file self.new ≡ file self.old }
        ensures exact { told → IsLengthOf (file self.old name.now) result }
        ensures once { takes self.old (Length name.now) self.new };

    /// Reads bytes at an offset into the front of the buffer, and answers how many: at least one, but at or past
    /// the file's end none. What stands behind them in the buffer is left open.
    fn read_at(&mut self, name: &str, off: u64, buf: &mut [u8]) -> Result<usize, FileErr>
        requires { 0 < length buf.old }
        ensures none_fell { NoneFell (counts self.old) (counts self.new) }
        ensures failed { IsErrOf result FileErr.Failed → Rose (counts self.old).faults (counts self.new).faults }
        ensures missing { IsErrOf result FileErr.Missing → Rose (counts self.old).absences (counts self.new).absences }
        ensures ended { result ≡ Ok 0 → Rose (counts self.old).ends (counts self.new).ends }
        ensures within { IfOk result (λ n. n ≤ length buf.old) }
        ensures same_files { file self.new ≡ file self.old }
        ensures there { told → IsReadOf (file self.old name.now) off buf.new result }
        ensures once { takes self.old (Reads name.now off (length buf.old)) self.new };

    /// Makes or replaces a file with so many zero bytes. After an error nothing is said of that name.
    fn create(&mut self, name: &str, len: u64) -> Result<(), WriteErr>
        ensures none_fell { NoneFell (counts self.old) (counts self.new) }
        ensures failed { IsErrOf result WriteErr.Failed → Rose (counts self.old).faults (counts self.new).faults }
        ensures others { OthersStay name.now (file self.old) (file self.new) }
        ensures made { told → OnOk result (file self.new name.now ≡ Some (replicate len 0)) }
        ensures once { takes self.old (Creates name.now len) self.new };

    /// Writes bytes at an offset of at most the length, past the end too. After an error nothing is said of
    /// that name.
    fn write_at(&mut self, name: &str, off: u64, bytes: &[u8]) -> Result<(), WriteErr>
        requires { told → IsThere (file self.old) name.now (off ≤ length (bytes_of (file self.old) name.now)) }
        ensures none_fell { NoneFell (counts self.old) (counts self.new) }
        ensures failed { IsErrOf result WriteErr.Failed → Rose (counts self.old).faults (counts self.new).faults }
        ensures others { OthersStay name.now (file self.old) (file self.new) }
        ensures wrote { told → OnOk result
            (file self.new name.now ≡ Some (written (bytes_of (file self.old) name.now) off bytes.now)) }
        ensures once { takes self.old (Writes name.now off bytes.now) self.new };

    /// Each count is at most the greatest number of 64 bits.
    ghost counts_end: { (files : Self) → AreCounts (counts files) };
}
