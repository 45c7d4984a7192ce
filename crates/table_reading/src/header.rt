ghost use Rattle.std.specs.Prelude.{◌≡◌, ◌+◌, ◌<◌, ◌≤◌, IfSome, length};
ghost use Rattle.base_fields.specs.Fields.{number_at};
ghost use Rattle.table_reading.specs.Header.{IsHeaderFault, demands, fault_of, first_unmet, sum_of};
ghost use Rattle.table_reading.specs.Recognised.{image_of};

use crate::first_sector::read_number;
use base_fields::{crc32, get_u64};

/// `EFI PART`, the lowest byte first.
pub const SIGNATURE: u64 = 0x5452_4150_2049_4645;

/// Version 1.0 of the header.
const REVISION: u32 = 0x0001_0000;

/// The bytes of a header that its sum is over.
const HEADER_LEN: u32 = 92;

/// The slots of a table, and the bytes of each.
const SLOTS: u32 = 128;

const SLOT_LEN: u32 = 128;

/// What is wrong with a header.
#[derive(Clone, Copy, Debug, PartialEq, Eq)]
pub enum HeaderFault {
    /// The field at this offset of the header isn't what it has to be.
    Field { at: u64 },
    /// The sum at 16 isn't that of the header.
    Sum { stated: u32, computed: u32 },
}

/// The number in the eight bytes at `at`.
#[tactic(auto, using(crate::proofs::Numbers::long_number_here))]
pub fn read_long(bytes: &[u8], at: usize) -> u64
    requires { at + 8 ≤ length bytes.now }
    ensures { result ≡ number_at (image_of bytes.now) at 8 }
{
    get_u64(bytes, at)
}

/// The offset of the first field at fault in a header that stands at the LBA `own`.
fn field_at_fault(head: &[u8; 92], own: u64, is_backup: bool) -> Option<u64>
    ensures exact { result ≡ first_unmet (demands own is_backup head.now) }
    ensures within { IfSome result (λ at. at < 92) }
{
    if read_long(head, 0) != SIGNATURE {
        return Some(0);
    }
    if read_number(head, 8) != REVISION {
        return Some(8);
    }
    if read_number(head, 12) != HEADER_LEN {
        return Some(12);
    }
    if read_number(head, 20) != 0 {
        return Some(20);
    }
    if read_long(head, 24) != own {
        return Some(24);
    }
    if is_backup && read_long(head, 32) != 1 {
        return Some(32);
    }
    if read_long(head, 72) == 0 {
        return Some(72);
    }
    if read_number(head, 80) != SLOTS {
        return Some(80);
    }
    if read_number(head, 84) != SLOT_LEN {
        return Some(84);
    }
    None
}

/// The CRC-32 of the header with the sum's own field zero.
fn computed_sum(head: &[u8; 92]) -> u32
    ensures { result ≡ sum_of head.now }
{
    let mut summed = *head;
    summed[16..20].fill(0);
    crc32(&summed)
}

/// What is wrong with a header that stands at the LBA `own`: its first field at fault, else its sum
/// (UEFI 2.10, section 5.3.2). The sum of the entries isn't looked at.
pub fn check_header(head: &[u8; 92], own: u64, is_backup: bool) -> Option<HeaderFault>
    ensures exact { result ≡ fault_of own is_backup head.now }
    ensures fault { IfSome result IsHeaderFault }
{
    if let Some(at) = field_at_fault(head, own, is_backup) {
        return Some(HeaderFault::Field { at });
    }
    let stated = read_number(head, 16);
    let computed = computed_sum(head);
    if stated != computed {
        return Some(HeaderFault::Sum { stated, computed });
    }
    None
}
