/// Why a sparse file was not read: the first thing that is wrong with it, or a refusal of the files.
#[derive(Clone, Copy, Debug, PartialEq, Eq)]
pub enum SparseFault {
    /// The field of the file's header that begins at the byte `at` hasn't its one value; 12 where the
    /// block size is 0 or no multiple of 4.
    BadMagic { at: u64 },
    /// Chunk `k`, counted from 0, has another type; a total that isn't 12 bytes and those of its data;
    /// or is a CRC chunk with blocks.
    BadChunk { k: u32 },
    /// A byte that is needed isn't below `at`, the file's length.
    Short { at: u64 },
    /// The header says `want` blocks, and the chunks have `got` in all.
    Counts { want: u64, got: u64 },
    /// There is no file of that name.
    Missing,
    /// A call on the files failed.
    FileFault,
}
