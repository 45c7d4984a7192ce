ghost use Rattle.std.specs.Prelude.{◌≡◌, ℕ, ◌<◌, ◌++◌, slice_index, replicate, codes};
ghost use Rattle.base_fields.specs.Fields.{written, joined};
ghost use Rattle.gpt_table.specs.Gpt.{header_fields, header_byte};

use crate::entry::put_guid;
use base_fields::{crc32, put_u32, put_u64};

/// What a header begins with.
const SIGNATURE: [u8; 8] = *b"EFI PART";

/// Version 1.0 of the header.
const REVISION: u32 = 0x0001_0000;

/// The bytes of a header that its sum is over.
const HEADER_LEN: u32 = 92;

/// The slots of a table.
const SLOTS: u32 = 128;

/// The bytes of a slot.
const SLOT_LEN: u32 = 128;

/// What a header says beside its fixed fields and its own sum. Places are LBAs.
#[derive(Clone, Copy, Debug, PartialEq, Eq)]
pub struct GptHeader {
    /// Where the header stands.
    pub own: u64,
    /// Where the other header stands.
    pub other: u64,
    /// The first sector that a partition may have.
    pub first_usable: u64,
    /// The last sector that a partition may have.
    pub last_usable: u64,
    /// The disk's GUID, in the order of RFC 9562.
    pub disk: [u8; 16],
    /// Where the entries stand.
    pub entries_at: u64,
    /// The CRC-32 of all 128 entries.
    pub entries_sum: u32,
}

/// A header of zeros behind the signature.
fn blank_header() -> [u8; 92]
    ensures { result ≡ written (replicate 92 0) 0 (codes "EFI PART") }
{
    let mut bytes = [0; 92];
    bytes[..8].copy_from_slice(&SIGNATURE);
    bytes
}

/// The 92 bytes of a header whose own sum is given.
fn header_bytes(header: &GptHeader, sum: u32) -> [u8; 92]
    ensures { result ≡ joined (header_fields header.now sum) }
{
    let mut bytes = blank_header();
    put_u32(&mut bytes, 8, REVISION);
    put_u32(&mut bytes, 12, HEADER_LEN);
    put_u32(&mut bytes, 16, sum);
    // Reserved.
    put_u32(&mut bytes, 20, 0);
    put_u64(&mut bytes, 24, header.own);
    put_u64(&mut bytes, 32, header.other);
    put_u64(&mut bytes, 40, header.first_usable);
    put_u64(&mut bytes, 48, header.last_usable);
    put_guid(&mut bytes, 56, header.disk);
    put_u64(&mut bytes, 72, header.entries_at);
    put_u32(&mut bytes, 80, SLOTS);
    put_u32(&mut bytes, 84, SLOT_LEN);
    put_u32(&mut bytes, 88, header.entries_sum);
    bytes
}

/// A header with zeros behind it.
fn padded(header: &[u8; 92]) -> [u8; 512]
    ensures { result ≡ header.now ++ replicate 420 0 }
{
    let mut head = [0; 512];
    head[..92].copy_from_slice(header);
    head
}

/// The first 512 bytes of a header's sector.
pub fn head(header: &GptHeader) -> [u8; 512]
    ensures { (o : ℕ) → o < 512 → slice_index result o ≡ header_byte header.now o }
{
    let sum = crc32(&header_bytes(header, 0));
    padded(&header_bytes(header, sum))
}
