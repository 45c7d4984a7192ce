use base_fields::NoMemory;
use bench::Dev;
use copier_moves::{DeviceFault, EndFault};
use copy_opening::OpenFault;
use journal_format::JobId;

/// Why a copier isn't opened, or refuses a step.
#[derive(Clone, Copy, Debug, PartialEq, Eq)]
pub enum CopyFault {
    /// The target has `has` bytes, fewer than the `needs` of the map's image.
    TargetTooSmall {
        has: u64,
        needs: u64,
    },
    /// The journal is held for the job `kept`. It is finished where that is the given job and all of it is
    /// recorded.
    JournalHeld {
        kept: JobId,
        finished: bool,
    },
    /// The journal isn't held.
    NoJournal,
    /// The journal is held for the job `kept` and has `length` bytes. That is another job, or fewer bytes than the
    /// given one needs.
    JournalForeign {
        kept: JobId,
        given: JobId,
        length: u64,
    },
    /// The source ends at or before the byte at `at`, the first of the present unit that isn't there.
    SourceShort {
        at: u64,
    },
    /// There is no file of the source's name.
    Missing,
    /// A call on the files failed.
    FileFault,
    /// A call on the device failed.
    DeviceFault {
        dev: Dev,
    },
    /// The target's bytes of range `range`, counted from 0, aren't those of the map: `want` is its digest in the map,
    /// `got` that of the target's bytes. No unit of the range is recorded then.
    RangeDiffers {
        range: u64,
        want: [u8; 32],
        got: [u8; 32],
    },
    /// Memory was refused.
    NoMemory,
}

impl From<NoMemory> for CopyFault {
    ghost use Rattle.std.specs.Prelude.{◌≡◌};
    ghost use Rattle.copier.specs.declared.faults.CopyFault.TheVariants.{NoMemory};

    ghost from_gives = { λ _ fault. fault ≡ NoMemory };

    fn from(_: NoMemory) -> CopyFault {
        CopyFault::NoMemory
    }
}

/// The opening's refusal is the copier's.
impl From<OpenFault> for CopyFault {
    ghost use Rattle.std.specs.Prelude.{◌≡◌};
    ghost use Rattle.copier.specs.Faults.{of_opening};

    ghost from_gives = { λ fault given. given ≡ of_opening fault };

    fn from(fault: OpenFault) -> CopyFault {
        match fault {
            OpenFault::TargetTooSmall { has, needs } => CopyFault::TargetTooSmall { has, needs },
            OpenFault::JournalHeld { kept, finished } => CopyFault::JournalHeld { kept, finished },
            OpenFault::NoJournal => CopyFault::NoJournal,
            OpenFault::JournalForeign {
                kept,
                given,
                length,
            } => CopyFault::JournalForeign {
                kept,
                given,
                length,
            },
            OpenFault::DeviceFault { dev } => CopyFault::DeviceFault { dev },
            OpenFault::NoMemory => CopyFault::NoMemory,
        }
    }
}

/// So is that of a move on the devices.
impl From<DeviceFault> for CopyFault {
    ghost use Rattle.std.specs.Prelude.{◌≡◌};
    ghost use Rattle.copier.specs.declared.faults.CopyFault.TheVariants.{DeviceFault};

    ghost from_gives = { λ fault given. given ≡ DeviceFault fault.dev };

    fn from(fault: DeviceFault) -> CopyFault {
        CopyFault::DeviceFault { dev: fault.dev }
    }
}

/// So is that of a range that isn't ended.
impl From<EndFault> for CopyFault {
    ghost use Rattle.std.specs.Prelude.{◌≡◌};
    ghost use Rattle.copier.specs.Faults.{of_ending};

    ghost from_gives = { λ fault given. given ≡ of_ending fault };

    fn from(fault: EndFault) -> CopyFault {
        match fault {
            EndFault::DeviceFault { dev } => CopyFault::DeviceFault { dev },
            EndFault::RangeDiffers { range, want, got } => {
                CopyFault::RangeDiffers { range, want, got }
            }
        }
    }
}
