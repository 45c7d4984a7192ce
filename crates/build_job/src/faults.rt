use base_fields::NoMemory;
use image_plan::PlanFault;
use outside::{ComposeFault, FileErr};

/// Why an image was not built. Images are numbered as in `Graph::specs`.
#[derive(Debug, Drop)]
pub enum BuildFault {
    /// The image of that number has no layout, or a sparse image of it is too long.
    Plan { image: u32, fault: PlanFault },
    /// The image of that number was planned, and its file was not made.
    Compose { image: u32, fault: ComposeFault },
    /// All images are built, and the length of that one's file was not given.
    Measure { image: u32, fault: FileErr },
    /// Memory was refused.
    NoMemory,
}

impl From<NoMemory> for BuildFault {
    ghost use Rattle.std.specs.Prelude.{◌≡◌};
    ghost use Rattle.build_job.specs.declared.faults.BuildFault.TheVariants.{NoMemory};

    ghost from_gives = { λ _ fault. fault ≡ NoMemory };

    fn from(_: NoMemory) -> Self {
        BuildFault::NoMemory
    }
}
