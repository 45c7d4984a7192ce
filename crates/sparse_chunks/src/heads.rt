ghost use Rattle.std.specs.Prelude.{◌≡◌, ◌+◌, ◌*◌, ◌^◌, ◌<◌};
ghost use Rattle.sparse_reader.specs.Chunks.{data_len};
ghost use Rattle.sparse_text.specs.Text.{header_text, kind_in, kind_number, tag_text};

use base_fields::{put_u16, put_u32};
use sparse_text::Content;

/// The bytes of the file's header.
pub const HEADER_LEN: usize = 28;

/// The bytes of a chunk's header.
pub const TAG_LEN: usize = 12;

const MAGIC: u32 = 0xED26FF3A;

/// The number of a chunk's type.
fn kind_number(content: Content) -> u16
    ensures { result ≡ kind_number content }
{
    match content {
        Content::Skip => 0xCAC3,
        Content::Fill { .. } => 0xCAC2,
        Content::Raw => 0xCAC1,
    }
}

/// The bytes behind the header of a chunk of so many blocks of `block` bytes.
pub fn data_len(content: Content, block: u32, count: u32) -> u64
    ensures { result ≡ data_len (kind_in content) block count }
{
    match content {
        Content::Skip => 0,
        Content::Fill { .. } => 4,
        Content::Raw => u64::from(count) * u64::from(block),
    }
}

/// The header of a chunk of so many blocks of `block` bytes.
pub fn tag_bytes(block: u32, content: Content, count: u32) -> [u8; TAG_LEN]
    requires { 12 + data_len (kind_in content) block count < 2 ^ 32 }
    ensures { result ≡ tag_text block content count }
{
    let mut bytes = [0; TAG_LEN];
    put_u16(&mut bytes, 0, kind_number(content));
    put_u32(&mut bytes, 4, count);
    put_u32(
        &mut bytes,
        8,
        (TAG_LEN as u64 + data_len(content, block, count)) as u32,
    );
    bytes
}

/// The header of a file of so many blocks of `block` bytes, in so many chunks.
pub fn header_bytes(block: u32, blocks: u32, chunks: u32) -> [u8; HEADER_LEN]
    ensures { result ≡ header_text block blocks chunks }
{
    let mut bytes = [0; HEADER_LEN];
    put_u32(&mut bytes, 0, MAGIC);
    put_u16(&mut bytes, 4, 1);
    put_u16(&mut bytes, 8, HEADER_LEN as u16);
    put_u16(&mut bytes, 10, TAG_LEN as u16);
    put_u32(&mut bytes, 12, block);
    put_u32(&mut bytes, 16, blocks);
    put_u32(&mut bytes, 20, chunks);
    bytes
}
