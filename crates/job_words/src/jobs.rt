ghost use Rattle.std.specs.Prelude.{◌≡◌};
ghost use Rattle.job_words.specs.declared.jobs.WordFault.TheVariants.{NoMemory};

use base_fields::{List, Name, Pair};
use std::alloc::{AllocError, AllocFailed};
use std::error::Error;
use std::fmt;

/// What the words ask for: a command with its values. Numbers are in their ranges.
#[derive(Debug, Drop)]
pub enum Job {
    /// Compiles the images of a configuration. The paths stand before names of inputs and outputs.
    Build {
        conf: Name,
        inputpath: Option<Name>,
        outputpath: Option<Name>,
    },
    /// Writes the block map of a built image, in blocks of `block` bytes.
    Map {
        conf: Name,
        image: Name,
        out: Name,
        block: u32,
        inputpath: Option<Name>,
        outputpath: Option<Name>,
    },
    /// Copies the mapped blocks of a source in units of `unit` bytes, `window` of them at a time.
    Copy {
        source: Name,
        map: Name,
        target: Name,
        journal: Name,
        unit: u32,
        window: u32,
        sparse: bool,
    },
    /// Goes on with a copy that was stopped.
    Resume {
        source: Name,
        map: Name,
        target: Name,
        journal: Name,
        unit: u32,
        sparse: bool,
    },
    /// Takes back what a journal holds.
    Forget {
        journal: Name,
    },
    /// Compares a target with the digests of a map.
    Verify {
        map: Name,
        target: Name,
    },
    /// Lists the tables or chunks of an image.
    List {
        image: Name,
    },
    /// Copies generated input on a bench in memory.
    Demo {
        seed: u64,
    },
    /// Copies to several targets; each pair is a target and its journal.
    Gang {
        source: Name,
        map: Name,
        pairs: List<Pair>,
        unit: u32,
    },
    /// Goes on with a copy to several targets.
    GangResume {
        source: Name,
        map: Name,
        pairs: List<Pair>,
        unit: u32,
    },
    /// Cuts a sparse image into pieces of at most `size` bytes.
    Cut {
        image: Name,
        prefix: Name,
        size: u64,
    },
    /// Puts sparse pieces together into an image.
    Expand {
        out: Name,
        pieces: List<Name>,
    },
    /// Writes an image to a NAND device with erase blocks and pages of so many bytes.
    Nand {
        image: Name,
        device: Name,
        bad_list: Name,
        block: u32,
        page: u32,
    },
}

/// Why words give no job.
#[derive(Clone, Copy, Debug, PartialEq, Eq)]
pub enum WordFault {
    /// The words stand for no job.
    Usage,
    /// Memory was refused.
    NoMemory,
}

impl fmt::Display for WordFault {
    fn fmt<W: fmt::Write>(&self, f: &mut fmt::Formatter<W>) -> fmt::Result {
        match self {
            WordFault::Usage => f.write_str("no job has these words"),
            WordFault::NoMemory => f.write_str("out of memory"),
        }
    }
}

impl Error for WordFault {}

impl From<AllocError> for WordFault {
    ghost from_gives = { λ _ fault. fault ≡ NoMemory };

    fn from(_: AllocError) -> Self {
        WordFault::NoMemory
    }
}

impl<T: Drop> From<AllocFailed<T>> for WordFault {
    ghost from_gives = { λ _ fault. fault ≡ NoMemory };

    fn from(_: AllocFailed<T>) -> Self {
        WordFault::NoMemory
    }
}

impl From<base_fields::NoMemory> for WordFault {
    ghost from_gives = { λ _ fault. fault ≡ NoMemory };

    fn from(_: base_fields::NoMemory) -> Self {
        WordFault::NoMemory
    }
}
