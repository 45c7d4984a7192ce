use sparse_reader::SparseFault;
use table_reader::TableFault;

/// Why an image is not listed: the first thing that is wrong with its file, or a refusal of the files. The fields are
/// those of the reader's fault, [`SparseFault`] or [`TableFault`].
#[derive(Clone, Copy, Debug, PartialEq, Eq)]
pub enum ListFault {
    /// A field of the sparse header that begins at the byte `at` hasn't its value.
    BadMagic { at: u64 },
    /// Sparse chunk `k`, counted from 0, is bad.
    BadChunk { k: u32 },
    /// The sparse header says `want` blocks, and the chunks have `got`.
    Counts { want: u64, got: u64 },
    /// The first sector doesn't end in 55 AA.
    NoTable,
    /// A header or the entries of a GUID partition table are bad at the byte `at`.
    BadGpt { at: u64 },
    /// The CRC-32 that stands at the byte `at` is `want`, and that of the bytes is `got`.
    BadSum { at: u64, want: u32, got: u32 },
    /// The boot record of a chain that begins at the byte `at` is bad.
    BadChain { at: u64 },
    /// A byte that is needed isn't below `at`, the file's length.
    Short { at: u64 },
    /// There is no file of that name.
    Missing,
    /// A call on the files failed.
    FileFault,
    /// Memory was refused.
    NoMemory,
}

impl From<SparseFault> for ListFault {
    ghost use Rattle.std.specs.Prelude.{◌≡◌};
    ghost use Rattle.list_job.specs.Faults.{of_sparse};

    ghost from_gives = { λ fault e. e ≡ of_sparse fault };

    fn from(fault: SparseFault) -> ListFault {
        match fault {
            SparseFault::BadMagic { at } => ListFault::BadMagic { at },
            SparseFault::BadChunk { k } => ListFault::BadChunk { k },
            SparseFault::Short { at } => ListFault::Short { at },
            SparseFault::Counts { want, got } => ListFault::Counts { want, got },
            SparseFault::Missing => ListFault::Missing,
            SparseFault::FileFault => ListFault::FileFault,
        }
    }
}

impl From<TableFault> for ListFault {
    ghost use Rattle.std.specs.Prelude.{◌≡◌};
    ghost use Rattle.list_job.specs.Faults.{of_table};

    ghost from_gives = { λ fault e. e ≡ of_table fault };

    fn from(fault: TableFault) -> ListFault {
        match fault {
            TableFault::NoTable => ListFault::NoTable,
            TableFault::BadGpt { at } => ListFault::BadGpt { at },
            TableFault::BadSum { at, want, got } => ListFault::BadSum { at, want, got },
            TableFault::BadChain { at } => ListFault::BadChain { at },
            TableFault::Short { at } => ListFault::Short { at },
            TableFault::Missing => ListFault::Missing,
            TableFault::FileFault => ListFault::FileFault,
            TableFault::NoMemory => ListFault::NoMemory,
        }
    }
}
