//! A master boot record with three primary partitions and a chain of two logical ones, each of one sector.
ghost use Rattle.std.specs.Prelude.{◌≡◌};

use crate::printing;
use extended_chain::{LogicalSpec, extended_entry, record_bytes};
use mbr_table::{MbrEntry, MbrSpec, mbr_bytes};
use std::io::{self, Write};

const LINUX: u8 = 0x83;

/// A primary partition of one sector.
fn primary(first: u32) -> MbrEntry
    ensures first { result.first ≡ first }
    ensures count { result.count ≡ 1 }
{
    MbrEntry {
        active: false,
        kind: LINUX,
        first,
        count: 1,
    }
}

/// The image, of eight sectors.
pub fn print<W: Write>(out: &mut W) -> io::Result<()> {
    let one = LogicalSpec {
        active: false,
        kind: LINUX,
        head: 4,
        first: 5,
        count: 1,
    };
    let two = LogicalSpec {
        head: 6,
        first: 7,
        ..one
    };
    let logical = [one, two];
    let record = mbr_bytes(&MbrSpec {
        signature: 0x0102_0304,
        entries: [primary(1), primary(2), primary(3), extended_entry(&logical)],
    });
    printing::image(out, "mbr.img", 4096)?;
    printing::part(out, 440, &record)?;
    printing::part(out, 4 * 512, &record_bytes(&logical, 0))?;
    printing::part(out, 6 * 512, &record_bytes(&logical, 1))
}
