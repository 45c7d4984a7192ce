//! One chunk after another.
ghost use Rattle.std.specs.Prelude.{◌≡◌, IfErr};
ghost use Rattle.outside.specs.Counts.{NoneFell};
ghost use Rattle.outside.specs.Files.{bytes_of};
ghost use Rattle.sparse_reader.specs.Answers.{Answers, HasCause, IsFaultAt, Moves, MovesBy};
ghost use Rattle.sparse_reader.specs.Chunks.{IsCursor};
ghost use Rattle.sparse_reader.specs.Sparse.{block_of, next_of};

use crate::chunk::behind;
use crate::parts::{length_of, read_chunk, read_header};
use crate::{Chunk, Cursor, SparseFault};
use outside::Files;

/// The chunk at the cursor, which moves behind it; None where the cursor is behind the last one. The
/// file's header and this chunk's are looked at, and no other chunk. Never answers `Counts`. A
/// refusal and None leave the cursor as it is.
pub fn next_chunk<F: Files>(
    files: &mut F,
    from: &str,
    cursor: &mut Cursor,
) -> Result<Option<Chunk>, SparseFault>
    requires { IsCursor cursor.old }
    ensures bounded { IsCursor cursor.new }
    ensures none_fell { NoneFell (F.counts files.old) (F.counts files.new) }
    ensures cause { IfErr result (HasCause (F.counts files.old) (F.counts files.new)) }
    ensures fault { IfErr result (IsFaultAt cursor.old.chunk) }
    ensures same_files { F.file files.new ≡ F.file files.old }
    ensures moved { Moves cursor.old result cursor.new }
    ensures moved_by { F.told → MovesBy (block_of (bytes_of (F.file files.old) from.now)) cursor.old result cursor.new }
    ensures answers { F.told → Answers (next_of (F.file files.old from.now) cursor.old) result }
{
    let len = length_of(files, from)?;
    let header = read_header(files, from, len)?;
    if cursor.chunk >= header.chunks {
        return Ok(None);
    }
    let chunk = read_chunk(files, from, len, header.block, *cursor)?;
    *cursor = behind(*cursor, header.block, &chunk);
    Ok(Some(chunk))
}
