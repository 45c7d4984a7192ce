use bench::{BenchErr, Dev};
use copy_journal::JournalFault;

/// A call on this device failed.
#[derive(Clone, Copy, Debug, PartialEq, Eq)]
pub struct DeviceFault {
    pub dev: Dev,
}

/// A call on the target failed: a stage calls the journal through `copy_journal` alone.
impl From<BenchErr> for DeviceFault {
    ghost use Rattle.std.specs.Prelude.{◌≡◌};
    ghost use Rattle.bench.specs.declared.Dev.TheVariants.{Target};

    ghost from_gives = { λ _ fault. fault.dev ≡ Target };

    fn from(_: BenchErr) -> DeviceFault {
        DeviceFault { dev: Dev::Target }
    }
}

/// A write of marks failed: it refuses for no other cause, and calls the journal alone.
impl From<JournalFault> for DeviceFault {
    ghost use Rattle.std.specs.Prelude.{◌≡◌};
    ghost use Rattle.bench.specs.declared.Dev.TheVariants.{Journal};

    ghost from_gives = { λ _ fault. fault.dev ≡ Journal };

    fn from(_: JournalFault) -> DeviceFault {
        DeviceFault { dev: Dev::Journal }
    }
}
