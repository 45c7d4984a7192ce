use base_fields::{Name, NoMemory};

/// Why the texts of a configuration were not read: the first thing that was met.
#[derive(Debug, Drop)]
pub enum WalkFault {
    /// At `place`, in bytes from the start of the text of that name, stands no token, or one that can't
    /// stand there; the length of the text where it ends too early.
    BadText { name: Name, place: u64 },
    /// A variable has no value.
    Unset { var: Name },
    /// The text of that name would be included at a nesting above 8.
    DeepInclude { name: Name },
    /// The texts up to here have so many bytes in all, more than 1,048,576. The number ends at 2^64 - 1.
    TooLong { total: u64 },
    /// There is no file of that name.
    Missing { name: Name },
    /// That file ends at or before the byte at `at`, which is needed.
    SourceShort { name: Name, at: u64 },
    /// A call on the files failed.
    FileFault,
    /// Memory was refused.
    NoMemory,
}

impl From<NoMemory> for WalkFault {
    ghost use Rattle.std.specs.Prelude.{◌≡◌};
    ghost use Rattle.conf_texts.specs.declared.fault.WalkFault.TheVariants.{NoMemory};

    ghost from_gives = { λ _ e. e ≡ NoMemory };

    fn from(_: NoMemory) -> WalkFault {
        WalkFault::NoMemory
    }
}
