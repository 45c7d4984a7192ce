//! The header of a sparse file, 28 bytes.
ghost use Rattle.std.specs.Prelude.{◌≡◌, IfErr, IfOk, IfSome, None, length, IsTrue};
ghost use Rattle.sparse_reader.specs.Answers.{IsBadMagic};
ghost use Rattle.sparse_reader.specs.Header.{IsField, first_bad, fixed_fields, header_in, is_block, number_in};

use crate::SparseFault;
use crate::chunk::TAG_LEN;
use base_fields::{get_u16, get_u32};

/// How many bytes the header has.
pub const HEADER_LEN: usize = 28;

const MAGIC: u32 = 0xED26FF3A;

/// The version of the format, 1.0.
const MAJOR: u16 = 1;

const MINOR: u16 = 0;

/// What a header says that may differ from file to file, but for the checksum.
#[derive(Clone, Copy, Debug, PartialEq, Eq)]
pub struct Header {
    /// The bytes of a block.
    pub block: u32,
    /// The blocks of the image.
    pub blocks: u32,
    /// The chunks of the file.
    pub chunks: u32,
}

/// The offset of the first field that hasn't its one value, or of a block size that is none.
fn bad_field(head: &[u8]) -> Option<u64>
    requires { length head.now ≡ 28 }
    ensures exact { result ≡ first_bad fixed_fields head.now }
    ensures field { IfSome result IsField }
    ensures block { result ≡ None → IsTrue (is_block (number_in head.now 12 4)) }
{
    if get_u32(head, 0) != MAGIC {
        return Some(0);
    }
    if get_u16(head, 4) != MAJOR {
        return Some(4);
    }
    if get_u16(head, 6) != MINOR {
        return Some(6);
    }
    if get_u16(head, 8) != HEADER_LEN as u16 {
        return Some(8);
    }
    if get_u16(head, 10) != TAG_LEN as u16 {
        return Some(10);
    }
    let block = get_u32(head, 12);
    if block == 0 || block % 4 != 0 {
        return Some(12);
    }
    None
}

/// The header that these bytes are.
pub fn header_in(head: &[u8]) -> Result<Header, SparseFault>
    requires { length head.now ≡ 28 }
    ensures exact { result ≡ header_in head.now }
    ensures fault { IfErr result IsBadMagic }
    ensures block { IfOk result (λ header. IsTrue (is_block header.block)) }
{
    if let Some(at) = bad_field(head) {
        return Err(SparseFault::BadMagic { at });
    }
    Ok(Header {
        block: get_u32(head, 12),
        blocks: get_u32(head, 16),
        chunks: get_u32(head, 20),
    })
}
