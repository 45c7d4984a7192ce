//! A chunk of a sparse file: what its 12 bytes of header say, and where the next one stands.
ghost use Rattle.std.specs.Prelude.{◌≡◌, ℕ, ◌+◌, ◌-◌, ◌*◌, ◌^◌, ◌<◌, ◌≤◌, true, IfSome, length};
ghost use Rattle.sparse_reader.specs.Chunks.{IsCursor, behind, data_len, kind_of, may_have, start, tag_in};

use base_fields::{get_u16, get_u32};

/// How many bytes the header of a chunk has.
pub const TAG_LEN: usize = 12;

/// What the blocks of a chunk are.
#[derive(Clone, Copy, Debug, PartialEq, Eq)]
pub enum ChunkKind {
    /// The bytes of the blocks stand behind the header.
    Raw,
    /// Each block is one word, again and again.
    Fill,
    /// The blocks are don't care.
    Skip,
    /// No blocks: a sum of those before, which isn't looked at.
    Crc,
}

/// A chunk of a sparse file.
#[derive(Clone, Copy, Debug, PartialEq, Eq)]
pub struct Chunk {
    pub kind: ChunkKind,
    /// The number of its first block in the image.
    pub first: u64,
    /// How many blocks it has.
    pub count: u32,
    /// The offset in the file of the byte behind its 12 bytes of header.
    pub at: u64,
    /// The word of a fill chunk, its first byte the lowest; else 0.
    pub word: u32,
}

/// Where the next chunk of a sparse file stands.
#[derive(Clone, Copy, Debug, PartialEq, Eq)]
pub struct Cursor {
    /// The number of the chunk, from 0.
    pub chunk: u32,
    /// The offset in the file of its header.
    pub at: u64,
    /// The number of its first block in the image.
    pub block: u64,
}

impl Cursor {
    /// The place of the first chunk.
    pub fn new() -> Cursor
        ensures exact { result ≡ start }
        ensures bounded { IsCursor result }
    {
        Cursor {
            chunk: 0,
            at: 28,
            block: 0,
        }
    }
}

/// What a chunk's header says: its kind and blocks.
#[derive(Clone, Copy, Debug, PartialEq, Eq)]
pub struct Tag {
    pub kind: ChunkKind,
    pub count: u32,
}

/// The kind of a type's number.
fn kind_of(number: u16) -> Option<ChunkKind>
    ensures { result ≡ kind_of number }
{
    match number {
        0xCAC1 => Some(ChunkKind::Raw),
        0xCAC2 => Some(ChunkKind::Fill),
        0xCAC3 => Some(ChunkKind::Skip),
        0xCAC4 => Some(ChunkKind::Crc),
        _ => None,
    }
}

/// Whether a chunk of that kind may have so many blocks.
fn may_have(kind: ChunkKind, count: u32) -> bool
    ensures { result ≡ may_have kind count }
{
    match kind {
        ChunkKind::Crc => count == 0,
        ChunkKind::Raw | ChunkKind::Fill | ChunkKind::Skip => true,
    }
}

/// How many bytes of data a chunk has, in blocks of `block` bytes.
pub fn data_len(kind: ChunkKind, block: u32, count: u32) -> u64
    ensures exact { result ≡ data_len kind block count }
    ensures bounded { result ≤ (2 ^ 32 - 1) * (2 ^ 32 - 1) }
{
    match kind {
        ChunkKind::Raw => u64::from(count) * u64::from(block),
        ChunkKind::Fill | ChunkKind::Crc => 4,
        ChunkKind::Skip => 0,
    }
}

/// The chunk that these 12 bytes say, in blocks of `block` bytes.
pub fn tag_in(head: &[u8], block: u32) -> Option<Tag>
    requires { length head.now ≡ 12 }
    ensures exact { result ≡ tag_in block head.now }
    ensures data { IfSome result (λ tag. 12 + data_len tag.kind block tag.count < 2 ^ 32) }
    ensures blocks { IfSome result (λ tag. may_have tag.kind tag.count ≡ true) }
{
    let kind = kind_of(get_u16(head, 0))?;
    let count = get_u32(head, 4);
    let total = u64::from(get_u32(head, 8));
    if may_have(kind, count) && total == TAG_LEN as u64 + data_len(kind, block, count) {
        Some(Tag { kind, count })
    } else {
        None
    }
}

/// The place behind a chunk that stands at a cursor, in blocks of `block` bytes.
pub fn behind(cursor: Cursor, block: u32, chunk: &Chunk) -> Cursor
    requires number { cursor.chunk + 1 < 2 ^ 32 }
    requires bounded { IsCursor cursor }
    requires at { chunk.now.at ≡ cursor.at + 12 }
    requires data { 12 + data_len chunk.now.kind block chunk.now.count < 2 ^ 32 }
    ensures exact { result ≡ behind block cursor chunk.now }
    ensures bounded { IsCursor result }
{
    Cursor {
        chunk: cursor.chunk + 1,
        at: chunk.at + data_len(chunk.kind, block, chunk.count),
        block: cursor.block + u64::from(chunk.count),
    }
}
