//! A sparse file as a whole.
ghost use Rattle.std.specs.Prelude.{◌≡◌, ℕ, IfErr, IfOk, IsTrue};
ghost use Rattle.outside.specs.Counts.{NoneFell};
ghost use Rattle.sparse_reader.specs.Answers.{Answers, HasCause, IsCounts, IsView};
ghost use Rattle.sparse_reader.specs.Header.{is_block};
ghost use Rattle.sparse_reader.specs.Sparse.{sparse_of};
ghost use Rattle.sparse_reader.specs.Tally.{IsTally, closed};

use crate::SparseFault;
use crate::header::Header;
use crate::parts::{length_of, read_header};
use crate::tally::{Tally, read_tally};
use outside::Files;

/// What a sparse file has. `blocks` counts blocks, the fields behind it chunks.
#[derive(Clone, Copy, Debug, PartialEq, Eq)]
pub struct SparseView {
    /// The bytes of a block.
    pub block: u32,
    /// The blocks of the image.
    pub blocks: u32,
    /// All chunks.
    pub chunks: u32,
    pub raw: u32,
    pub fill: u32,
    /// The chunks of don't-care blocks.
    pub skip: u32,
    pub crc: u32,
}

/// The view of a header and the counts of its chunks, where these have as many blocks as it says.
fn close(header: Header, tally: Tally) -> Result<SparseView, SparseFault>
    ensures exact { result ≡ closed header tally }
    ensures fault { IfErr result IsCounts }
{
    if tally.blocks != u64::from(header.blocks) {
        return Err(SparseFault::Counts {
            want: u64::from(header.blocks),
            got: tally.blocks,
        });
    }
    Ok(SparseView {
        block: header.block,
        blocks: header.blocks,
        chunks: header.chunks,
        raw: tally.raw,
        fill: tally.fill,
        skip: tally.skip,
        crc: tally.crc,
    })
}

/// Reads the header and every chunk of the sparse file `from`. Of a chunk's data only the word of a
/// fill chunk is read; that the file has the rest is seen by its length, which is asked for once.
/// Bytes behind the last chunk are left unread, and the checksums aren't looked at.
pub fn read_sparse<F: Files>(files: &mut F, from: &str) -> Result<SparseView, SparseFault>
    ensures none_fell { NoneFell (F.counts files.old) (F.counts files.new) }
    ensures cause { IfErr result (HasCause (F.counts files.old) (F.counts files.new)) }
    ensures same_files { F.file files.new ≡ F.file files.old }
    ensures view { IfOk result IsView }
    ensures answers { F.told → Answers (sparse_of (F.file files.old from.now)) result }
{
    let len = length_of(files, from)?;
    let header = read_header(files, from, len)?;
    let tally = read_tally(files, from, len, header)?;
    close(header, tally)
}
