use base_fields::NoMemory;
use bench::Dev;
use map_source::SourceFault;
use verifier::VerifyFault;

/// Why a target isn't verified by the map of a file.
#[derive(Clone, Copy, Debug, PartialEq, Eq)]
pub enum VerifyJobFault {
    /// The map isn't read.
    Map(SourceFault),
    /// The target has `has` bytes, fewer than the `needs` of the map's image.
    TargetTooSmall {
        has: u64,
        needs: u64,
    },
    /// Range `range`, counted from 0, is the first with other bytes than the map says: `want` is its digest in the map,
    /// `got` that of the target's bytes.
    TargetDiffers {
        range: u64,
        want: [u8; 32],
        got: [u8; 32],
    },
    /// A call on the device failed.
    DeviceFault {
        dev: Dev,
    },
    /// Memory was refused.
    NoMemory,
}

impl From<SourceFault> for VerifyJobFault {
    ghost use Rattle.std.specs.Prelude.{◌≡◌};
    ghost use Rattle.verify_job.specs.declared.faults.VerifyJobFault.TheVariants.{Map};

    ghost from_gives = { λ map fault. fault ≡ Map map };

    fn from(fault: SourceFault) -> VerifyJobFault {
        VerifyJobFault::Map(fault)
    }
}

impl From<VerifyFault> for VerifyJobFault {
    ghost use Rattle.std.specs.Prelude.{◌≡◌};
    ghost use Rattle.verify_job.specs.Faults.{fault_of};

    ghost from_gives = { λ target fault. fault ≡ fault_of target };

    fn from(fault: VerifyFault) -> VerifyJobFault {
        match fault {
            VerifyFault::TargetTooSmall { has, needs } => {
                VerifyJobFault::TargetTooSmall { has, needs }
            }
            VerifyFault::TargetDiffers { range, want, got } => {
                VerifyJobFault::TargetDiffers { range, want, got }
            }
            VerifyFault::DeviceFault { dev } => VerifyJobFault::DeviceFault { dev },
        }
    }
}

impl From<NoMemory> for VerifyJobFault {
    ghost use Rattle.std.specs.Prelude.{◌≡◌};
    ghost use Rattle.verify_job.specs.declared.faults.VerifyJobFault.TheVariants.{NoMemory};

    ghost from_gives = { λ _ fault. fault ≡ NoMemory };

    fn from(_: NoMemory) -> VerifyJobFault {
        VerifyJobFault::NoMemory
    }
}
