use base_fields::NoMemory;
use bmap_grammar::MapFault;

/// Why no map was read: the file isn't given, or the first thing that is wrong with its text. Places are in bytes from
/// the text's start.
#[derive(Clone, Copy, Debug, PartialEq, Eq)]
pub enum SourceFault {
    /// There is no file of that name.
    Missing,
    /// The file ends at or before the byte at `at`, which was below its length when that was asked for.
    SourceShort { at: u64 },
    /// A call on the files failed.
    FileFault,
    /// The item that begins at `place` can't stand there, or the text ends there too early. Where the text is too long
    /// to be read, `place` is the greatest length.
    BadMap { place: u64 },
    /// The document that begins at `place` has another version than 2.0.
    OtherVersion { place: u64 },
    /// The element that begins at `place` names another digest than SHA-256.
    OtherDigest { place: u64 },
    /// The text says `want` blocks where `got` are counted.
    BadCounts { want: u64, got: u64 },
    /// The text says the sum `want`, and has `got`.
    SumDiffers { want: [u8; 32], got: [u8; 32] },
    /// Memory was refused.
    NoMemory,
}

impl From<NoMemory> for SourceFault {
    ghost use Rattle.std.specs.Prelude.{◌≡◌};
    ghost use Rattle.map_source.specs.declared.faults.SourceFault.TheVariants.{NoMemory};

    ghost from_gives = { λ _ fault. fault ≡ NoMemory };

    fn from(_: NoMemory) -> SourceFault {
        SourceFault::NoMemory
    }
}

impl From<MapFault> for SourceFault {
    ghost use Rattle.std.specs.Prelude.{◌≡◌};
    ghost use Rattle.map_source.specs.Faults.{fault_of};

    ghost from_gives = { λ map fault. fault ≡ fault_of map };

    fn from(fault: MapFault) -> SourceFault {
        match fault {
            MapFault::BadMap { place } => SourceFault::BadMap { place },
            MapFault::OtherVersion { place } => SourceFault::OtherVersion { place },
            MapFault::OtherDigest { place } => SourceFault::OtherDigest { place },
            MapFault::BadCounts { want, got } => SourceFault::BadCounts { want, got },
            MapFault::SumDiffers { want, got } => SourceFault::SumDiffers { want, got },
            MapFault::NoMemory => SourceFault::NoMemory,
        }
    }
}
