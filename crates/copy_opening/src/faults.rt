use base_fields::NoMemory;
use bench::{BenchErr, Dev};
use copy_journal::{JobId, JournalFault};

/// Why a copy isn't opened.
#[derive(Clone, Copy, Debug, PartialEq, Eq)]
pub enum OpenFault {
    /// The target has `has` bytes, fewer than the `needs` of the map's image.
    TargetTooSmall {
        has: u64,
        needs: u64,
    },
    /// The journal is held for the job `kept`. It is finished where that is the given job and all of it is
    /// recorded.
    JournalHeld {
        kept: JobId,
        finished: bool,
    },
    /// The journal isn't held.
    NoJournal,
    /// The journal is held for the job `kept` and has `length` bytes. That is another job, or fewer bytes than the
    /// given one needs.
    JournalForeign {
        kept: JobId,
        given: JobId,
        length: u64,
    },
    /// A call on the device failed.
    DeviceFault {
        dev: Dev,
    },
    /// Memory was refused.
    NoMemory,
}

/// A call on the target failed: the journal is called through `copy_journal` alone.
impl From<BenchErr> for OpenFault {
    ghost use Rattle.std.specs.Prelude.{◌≡◌};
    ghost use Rattle.bench.specs.declared.Dev.TheVariants.{Target};
    ghost use Rattle.copy_opening.specs.declared.faults.OpenFault.TheVariants.{DeviceFault};

    ghost from_gives = { λ _ fault. fault ≡ DeviceFault Target };

    fn from(_: BenchErr) -> OpenFault {
        OpenFault::DeviceFault { dev: Dev::Target }
    }
}

impl From<NoMemory> for OpenFault {
    ghost use Rattle.std.specs.Prelude.{◌≡◌};
    ghost use Rattle.copy_opening.specs.declared.faults.OpenFault.TheVariants.{NoMemory};

    ghost from_gives = { λ _ fault. fault ≡ NoMemory };

    fn from(_: NoMemory) -> OpenFault {
        OpenFault::NoMemory
    }
}

/// The journal's refusal is the copy's.
impl From<JournalFault> for OpenFault {
    ghost use Rattle.std.specs.Prelude.{◌≡◌};
    ghost use Rattle.copy_opening.specs.Faults.{handed};

    ghost from_gives = { λ fault given. given ≡ handed fault };

    fn from(fault: JournalFault) -> OpenFault {
        match fault {
            JournalFault::JournalHeld { kept, finished } => OpenFault::JournalHeld {
                kept,
                finished,
            },
            JournalFault::NoJournal => OpenFault::NoJournal,
            JournalFault::JournalForeign {
                kept,
                given,
                length,
            } => OpenFault::JournalForeign {
                kept,
                given,
                length,
            },
            JournalFault::DeviceFault { dev } => OpenFault::DeviceFault { dev },
            JournalFault::NoMemory => OpenFault::NoMemory,
        }
    }
}
