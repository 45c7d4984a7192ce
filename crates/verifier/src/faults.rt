use bench::{BenchErr, Dev};

/// Why a target isn't verified.
#[derive(Clone, Copy, Debug, PartialEq, Eq)]
pub enum VerifyFault {
    /// The target has `has` bytes, fewer than the `needs` of the map's image.
    TargetTooSmall {
        has: u64,
        needs: u64,
    },
    /// Range `range`, counted from 0, is the first with other bytes than the map says: `want` is its digest in the
    /// map, `got` that of the target's bytes.
    TargetDiffers {
        range: u64,
        want: [u8; 32],
        got: [u8; 32],
    },
    /// A call on the device failed.
    DeviceFault {
        dev: Dev,
    },
}

/// A call on the target failed: no call here is on the journal.
impl From<BenchErr> for VerifyFault {
    ghost use Rattle.std.specs.Prelude.{◌≡◌};
    ghost use Rattle.bench.specs.declared.Dev.TheVariants.{Target};
    ghost use Rattle.verifier.specs.declared.faults.VerifyFault.TheVariants.{DeviceFault};

    ghost from_gives = { λ _ fault. fault ≡ DeviceFault Target };

    fn from(_: BenchErr) -> VerifyFault {
        VerifyFault::DeviceFault { dev: Dev::Target }
    }
}
