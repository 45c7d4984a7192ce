use base_fields::{Name, NoMemory};

/// What a partition meets that it may not.
#[derive(Clone, Copy, Debug, PartialEq, Eq)]
pub enum Meeting {
    /// The bytes at 440 to 511, `[mbr]`.
    Mbr,
    /// The front header of a GUID partition table, `[gpt-header]`.
    Header,
    /// The entries behind it, `[gpt-entries]`.
    Entries,
    /// Anything below the front end, `[front]`.
    Front,
    /// An earlier partition, by its number from 0.
    Earlier(usize),
}

/// Why a partition can't stand where the rules put it. Numbers are in bytes but for those of `TooFar` where its limit is
/// 4,294,967,295: these are sectors.
#[derive(Clone, Copy, Debug, PartialEq, Eq)]
pub enum PartFault {
    Misaligned { value: u64, align: u64 },
    /// The number of the hole, from 0.
    BadHoles { index: u64 },
    BadAutoresize { room: u64, least: u64 },
    FileTooLarge { has: u64, limit: u64 },
    NoSize,
    TooFar { number: u64, limit: u64 },
    Meets(Meeting),
}

/// Why an image can't be placed. Numbers are in bytes but for those of `TooFar` where its limit is 4,294,967,295: these are
/// sectors.
#[derive(Debug, Drop)]
pub enum PlaceFault {
    /// More partitions in a GUID partition table than its 128 entries.
    TooManyEntries {
        count: u64,
    },
    /// A place or a size that isn't a multiple of `align`; `part` is the image's name for one of the image.
    Misaligned {
        part: Name,
        value: u64,
        align: u64,
    },
    /// A hole that doesn't begin below its end, or begins below the end of the one before. `index` counts from 0.
    BadHoles {
        part: Name,
        index: u64,
    },
    /// A partition that grows to the end of the image and has less room than it needs.
    BadAutoresize {
        part: Name,
        room: u64,
        least: u64,
    },
    FileTooLarge {
        part: Name,
        has: u64,
        limit: u64,
    },
    /// A partition of the table without a byte.
    NoSize {
        part: Name,
    },
    /// A number above its limit; `part` is the image's name for one of the image.
    TooFar {
        part: Name,
        number: u64,
        limit: u64,
    },
    /// `b` is an earlier partition, or a table's name in square brackets.
    Overlap {
        a: Name,
        b: Name,
    },
    ImageTooSmall {
        has: u64,
        needs: u64,
    },
    /// A place or size of a flash image that isn't a multiple of its erase block.
    NotOnBlock {
        part: Name,
        value: u64,
        pebsize: u64,
    },
    PastFlash {
        part: Name,
        end: u64,
        limit: u64,
    },
    NoMemory,
}

impl From<NoMemory> for PlaceFault {
    ghost use Rattle.std.specs.Prelude.{◌≡◌};
    ghost use Rattle.placement_rules.specs.declared.faults.PlaceFault.TheVariants.{NoMemory};

    ghost from_gives = { λ _ fault. fault ≡ NoMemory };

    fn from(_: NoMemory) -> Self {
        PlaceFault::NoMemory
    }
}
