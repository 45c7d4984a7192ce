use base_fields::NoMemory;

/// Why no table was read: the first thing that is wrong with the file, or a refusal of the files.
#[derive(Clone, Copy, Debug, PartialEq, Eq)]
pub enum TableFault {
    /// The first sector doesn't end in 55 AA.
    NoTable,
    /// The field of a GPT header that begins at the byte `at` hasn't the value that it must have; or the byte at `at`
    /// of the backup's entries isn't that of the entries in front.
    BadGpt { at: u64 },
    /// The CRC-32 that stands at the byte `at` is `want`, and that of the bytes is `got`.
    BadSum { at: u64, want: u32, got: u32 },
    /// The boot record that begins at the byte `at` lacks 55 AA, has an empty first entry, leads to no later sector, or
    /// is the 257th of its chain.
    BadChain { at: u64 },
    /// A byte that is needed isn't below `at`, the file's length.
    Short { at: u64 },
    /// There is no file of that name.
    Missing,
    /// A call on the files failed.
    FileFault,
    /// Memory was refused.
    NoMemory,
}

impl From<NoMemory> for TableFault {
    ghost use Rattle.std.specs.Prelude.{◌≡◌};
    ghost use Rattle.table_reader.specs.declared.fault.TableFault.TheVariants as fault;

    ghost from_gives = { λ _ e. e ≡ fault.NoMemory };

    fn from(_: NoMemory) -> TableFault {
        TableFault::NoMemory
    }
}
