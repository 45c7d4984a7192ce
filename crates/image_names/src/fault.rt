use base_fields::{Name, NoMemory};

/// Why the images of a configuration can't be built, in the order in which the causes are looked
/// for, each over the whole configuration before the next.
#[derive(Debug, Drop)]
pub enum GraphFault {
    /// There are `count` images, more than 64, or an image has `count` partitions, more than 256.
    TooMany { count: u64, limit: u64 },
    /// That image has `count` sections other than `partition`, and not one.
    NoKind { image: Name, count: u64 },
    /// That image is for a flash device, and names no section of one.
    NoFlash { image: Name },
    /// Two things have one name, or an image has the full name of a file that is read: of an input,
    /// or of a text. Where the two have different names and one full name, that is the full name.
    NameClash { name: Name },
    /// A chain of children leads from that image to itself.
    Cycle { name: Name },
    /// Memory was refused.
    NoMemory,
}

impl From<NoMemory> for GraphFault {
    ghost use Rattle.std.specs.Prelude.{◌≡◌};
    ghost use Rattle.image_names.specs.declared.fault.GraphFault.TheVariants.{NoMemory};

    ghost from_gives = { λ _ fault. fault ≡ NoMemory };

    fn from(_: NoMemory) -> Self {
        GraphFault::NoMemory
    }
}
