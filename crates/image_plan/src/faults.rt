use base_fields::NoMemory;
use placement_rules::PlaceFault;

/// Why an image has no layout.
#[derive(Debug, Drop)]
pub enum PlanFault {
    /// The file of the source of that number, from 0, isn't there.
    Missing { source: usize },
    /// A call on the files failed.
    FileFault,
    /// It can't be placed, or memory was refused (`PlaceFault::NoMemory`).
    Place(PlaceFault),
}

impl From<PlaceFault> for PlanFault {
    ghost use Rattle.std.specs.Prelude.{◌≡◌};
    ghost use Rattle.image_plan.specs.declared.faults.PlanFault.TheVariants.{Place};

    ghost from_gives = { λ fault plan. plan ≡ Place fault };

    fn from(fault: PlaceFault) -> Self {
        PlanFault::Place(fault)
    }
}

impl From<NoMemory> for PlanFault {
    ghost use Rattle.std.specs.Prelude.{◌≡◌};
    ghost use Rattle.image_plan.specs.declared.faults.PlanFault.TheVariants.{Place};
    ghost use Rattle.placement_rules.specs.declared.faults.PlaceFault.TheVariants.{NoMemory};

    ghost from_gives = { λ _ plan. plan ≡ Place NoMemory };

    fn from(_: NoMemory) -> Self {
        PlanFault::Place(PlaceFault::NoMemory)
    }
}
