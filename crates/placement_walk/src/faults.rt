ghost use Rattle.std.specs.Prelude.{◌≡◌};

use base_fields::NoMemory;
use placement_rules::PartFault;

/// Why a partition can't stand behind the others.
#[derive(Clone, Copy, Debug, PartialEq, Eq)]
pub enum StepFault {
    Part(PartFault),
    NoMemory,
}

/// Why the partitions of an image can't all stand.
#[derive(Clone, Copy, Debug, PartialEq, Eq)]
pub enum WalkFault {
    /// The first that can't, by its number from 0.
    Part { number: usize, fault: PartFault },
    NoMemory,
}

impl From<NoMemory> for StepFault {
    ghost use Rattle.placement_walk.specs.declared.faults.StepFault.TheVariants.{NoMemory};

    ghost from_gives = { λ _ fault. fault ≡ NoMemory };

    fn from(_: NoMemory) -> Self {
        StepFault::NoMemory
    }
}
