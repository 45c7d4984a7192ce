use base_fields::NoMemory;
use image_plan::PlanFault;
use outside::FileErr;
use range_digest::DigestFault;

/// Why no block map was written. Images are numbered as in `Graph::specs`.
#[derive(Debug, Drop)]
pub enum MappingFault {
    /// No image of that name is built.
    NoImage,
    /// The map would have the name of a text, of a file that is taken ready, or of the file of an image.
    NameClash,
    /// The image of that number has no layout, or its file or its source's is too long.
    Plan { image: u32, fault: PlanFault },
    /// The length of that image's file was not given.
    Measure { image: u32, fault: FileErr },
    /// The image's file has `has` bytes, and its layout has `needs`.
    ImageStale { has: u64, needs: u64 },
    /// A range of that image's file has no digest.
    Digest { image: u32, fault: DigestFault },
    /// The map was not written.
    FileFault,
    /// Memory was refused.
    NoMemory,
}

impl From<NoMemory> for MappingFault {
    ghost use Rattle.std.specs.Prelude.{◌≡◌};
    ghost use Rattle.map_job.specs.declared.faults.MappingFault.TheVariants.{NoMemory};

    ghost from_gives = { λ _ fault. fault ≡ NoMemory };

    fn from(_: NoMemory) -> Self {
        MappingFault::NoMemory
    }
}
