//! The counts of the chunks of a sparse file.
ghost use Rattle.std.specs.Prelude.{◌≡◌, ℕ, ◌+◌, ◌*◌, ◌^◌, ◌<◌, ◌≤◌, IfErr, IfOk, IsTrue, length};
ghost use Rattle.outside.specs.Counts.{NoneFell};
ghost use Rattle.outside.specs.Files.{IsThere, bytes_of};
ghost use Rattle.sparse_reader.specs.Answers.{Answers, HasCause};
ghost use Rattle.sparse_reader.specs.Header.{is_block};
ghost use Rattle.sparse_reader.specs.Tally.{IsTally, nothing, tally_in, with_chunk};

use crate::chunk::behind;
use crate::header::Header;
use crate::parts::read_chunk;
use crate::{Chunk, ChunkKind, Cursor, SparseFault};
use outside::Files;

/// How many chunks there are of each kind, and how many blocks they have.
#[derive(Clone, Copy, Debug, PartialEq, Eq)]
pub struct Tally {
    pub raw: u32,
    pub fill: u32,
    pub skip: u32,
    pub crc: u32,
    pub blocks: u64,
}

impl Tally {
    /// Of no chunk.
    fn new() -> Tally
        ensures exact { result ≡ nothing }
        ensures kinds { IsTally 0 result }
    {
        Tally {
            raw: 0,
            fill: 0,
            skip: 0,
            crc: 0,
            blocks: 0,
        }
    }

    /// With one more chunk.
    fn with(self, chunk: &Chunk) -> Tally
        requires few { IsTally (self.raw + self.fill + self.skip + self.crc) self }
        requires more { self.raw + self.fill + self.skip + self.crc + 1 < 2 ^ 32 }
        requires count { chunk.now.count < 2 ^ 32 }
        ensures exact { result ≡ with_chunk self chunk.now }
        ensures kinds { IsTally (self.raw + self.fill + self.skip + self.crc + 1) result }
    {
        let blocks = self.blocks + u64::from(chunk.count);
        match chunk.kind {
            ChunkKind::Raw => Tally {
                raw: self.raw + 1,
                blocks,
                ..self
            },
            ChunkKind::Fill => Tally {
                fill: self.fill + 1,
                blocks,
                ..self
            },
            ChunkKind::Skip => Tally {
                skip: self.skip + 1,
                blocks,
                ..self
            },
            ChunkKind::Crc => Tally {
                crc: self.crc + 1,
                blocks,
                ..self
            },
        }
    }
}

/// The counts of the chunks of a file that has `len` bytes and that header.
pub fn read_tally<F: Files>(
    files: &mut F,
    from: &str,
    len: u64,
    header: Header,
) -> Result<Tally, SparseFault>
    requires block { IsTrue (is_block header.block) }
    requires there { F.told → IsThere (F.file files.old) from.now (len ≡ length (bytes_of (F.file files.old) from.now)) }
    ensures none_fell { NoneFell (F.counts files.old) (F.counts files.new) }
    ensures cause { IfErr result (HasCause (F.counts files.old) (F.counts files.new)) }
    ensures same_files { F.file files.new ≡ F.file files.old }
    ensures kinds { IfOk result (IsTally header.chunks) }
    ensures answers { F.told → Answers (tally_in (bytes_of (F.file files.old) from.now) header) result }
{
    let mut cursor = Cursor::new();
    let mut tally = Tally::new();
    while cursor.chunk < header.chunks {
        let chunk = read_chunk(files, from, len, header.block, cursor)?;
        tally = tally.with(&chunk);
        cursor = behind(cursor, header.block, &chunk);
    }
    Ok(tally)
}
