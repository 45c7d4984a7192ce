use bench::Dev;
use copy_stages::DeviceFault;

/// Why a range isn't ended.
#[derive(Clone, Copy, Debug, PartialEq, Eq)]
pub enum EndFault {
    /// A call on the device failed.
    DeviceFault {
        dev: Dev,
    },
    /// The target's bytes of range `range`, counted from 0, aren't those of the map: `want` is its digest in the map,
    /// `got` that of the target's bytes. No unit of the range is recorded then.
    RangeDiffers {
        range: u64,
        want: [u8; 32],
        got: [u8; 32],
    },
}

impl From<DeviceFault> for EndFault {
    ghost use Rattle.std.specs.Prelude.{◌≡◌};
    ghost use Rattle.copier_moves.specs.declared.faults.EndFault.TheVariants.{DeviceFault};

    ghost from_gives = { λ fault given. given ≡ DeviceFault fault.dev };

    fn from(fault: DeviceFault) -> EndFault {
        EndFault::DeviceFault { dev: fault.dev }
    }
}
