use base_fields::NoMemory;
use bench::{BenchErr, Dev};
use journal_format::JobId;

/// Why a call on a journal was refused.
#[derive(Clone, Copy, Debug, PartialEq, Eq)]
pub enum JournalFault {
    /// The journal is held, for the job `kept`. It is finished where that is the given job and all of it is
    /// recorded.
    JournalHeld {
        kept: JobId,
        finished: bool,
    },
    /// The journal isn't held.
    NoJournal,
    /// The journal is held for the job `kept` and has `length` bytes. That is another job, or fewer bytes than the
    /// given one needs.
    JournalForeign {
        kept: JobId,
        given: JobId,
        length: u64,
    },
    /// A call on the device failed.
    DeviceFault {
        dev: Dev,
    },
    /// Memory was refused.
    NoMemory,
}

/// A call on the journal failed: no call here is on the target.
impl From<BenchErr> for JournalFault {
    ghost use Rattle.std.specs.Prelude.{◌≡◌};
    ghost use Rattle.bench.specs.declared.Dev.TheVariants.{Journal};
    ghost use Rattle.copy_journal.specs.declared.faults.JournalFault.TheVariants.{DeviceFault};

    ghost from_gives = { λ _ fault. fault ≡ DeviceFault Journal };

    fn from(_: BenchErr) -> JournalFault {
        JournalFault::DeviceFault { dev: Dev::Journal }
    }
}

impl From<NoMemory> for JournalFault {
    ghost use Rattle.std.specs.Prelude.{◌≡◌};
    ghost use Rattle.copy_journal.specs.declared.faults.JournalFault.TheVariants.{NoMemory};

    ghost from_gives = { λ _ fault. fault ≡ NoMemory };

    fn from(_: NoMemory) -> JournalFault {
        JournalFault::NoMemory
    }
}
