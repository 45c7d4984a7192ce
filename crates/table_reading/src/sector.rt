ghost use Rattle.std.specs.Prelude.{◌≡◌, ◌≤◌};
ghost use Rattle.table_reading.specs.Sector.{begins_header as has_header, sector_of, sector_of_header};

use crate::header::{SIGNATURE, read_long};
use base_fields::TableKind;

/// The two sector sizes, of which the header in front stands at one.
const SMALL: usize = 512;

const LARGE: usize = 4096;

/// Whether a header begins at `at`.
fn begins_header(bytes: &[u8], at: usize) -> bool
    requires { at ≤ 4096 }
    ensures { result ≡ has_header bytes.now at }
{
    at + 8 <= bytes.len() && read_long(bytes, at) == SIGNATURE
}

/// The sector size by the header in front.
fn sector_by_header(bytes: &[u8]) -> u32
    ensures { result ≡ sector_of_header bytes.now }
{
    if !begins_header(bytes, SMALL) && begins_header(bytes, LARGE) {
        4096
    } else {
        512
    }
}

/// The sector size of an image with this kind of table. Of its bytes the first 4104 are looked at, or as many as there
/// are.
pub fn sector_size(kind: TableKind, bytes: &[u8]) -> u32
    ensures { result ≡ sector_of kind bytes.now }
{
    match kind {
        TableKind::Gpt | TableKind::Hybrid => sector_by_header(bytes),
        TableKind::Mbr | TableKind::Bare => 512,
    }
}
