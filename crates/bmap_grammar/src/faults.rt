use base_fields::NoMemory;
use thiserror::Error;

/// Why a text isn't a bmap document. Places are in bytes from the text's start.
#[derive(Clone, Copy, Debug, PartialEq, Eq, Error)]
pub enum MapFault {
    /// The item that begins at `place` can't stand there, or the text ends there too early.
    #[error("no item of a bmap document can stand at {place}")]
    BadMap { place: u64 },
    /// The document that begins at `place` has another version than 2.0.
    #[error("another version at {place}")]
    OtherVersion { place: u64 },
    /// The element that begins at `place` names another digest than SHA-256.
    #[error("another digest at {place}")]
    OtherDigest { place: u64 },
    /// The text says `want` blocks where `got` are counted.
    #[error("{want} blocks are said, and {got} counted")]
    BadCounts { want: u64, got: u64 },
    /// The text says the sum `want`, and has `got`.
    #[error("the sum of the text is another")]
    SumDiffers { want: [u8; 32], got: [u8; 32] },
    /// Memory was refused.
    #[error("out of memory")]
    NoMemory,
}

impl From<NoMemory> for MapFault {
    ghost use Rattle.std.specs.Prelude.{◌≡◌};
    ghost use Rattle.bmap_grammar.specs.declared.faults.MapFault.TheVariants.{NoMemory};

    ghost from_gives = { λ _ e. e ≡ NoMemory };

    fn from(_: NoMemory) -> MapFault {
        MapFault::NoMemory
    }
}
