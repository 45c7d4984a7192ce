//! Where a backup differs from the table in front.
ghost use Rattle.std.specs.Prelude.{◌≡◌, ◌<◌, IfSome, length};
ghost use Rattle.table_reading.specs.Header.{first_unmet};
ghost use Rattle.gpt_reading.specs.Differences.{agreements, first_unlike as differs_at};

use table_reading::read_long;

/// The offset in a backup header of the first of its usable LBAs and its disk's identifier that isn't that of the
/// header in front.
pub fn field_unlike(front: &[u8; 92], back: &[u8; 92]) -> Option<u64>
    ensures exact { result ≡ first_unmet (agreements front.now back.now) }
    ensures within { IfSome result (λ at. at < 92) }
{
    if read_long(back, 40) != read_long(front, 40) {
        return Some(40);
    }
    if read_long(back, 48) != read_long(front, 48) {
        return Some(48);
    }
    if read_long(back, 56) != read_long(front, 56) || read_long(back, 64) != read_long(front, 64) {
        return Some(56);
    }
    None
}

/// The offset of the first byte that isn't the same in both.
pub fn first_unlike(bytes: &[u8], others: &[u8]) -> Option<usize>
    ensures exact { result ≡ differs_at bytes.now others.now }
    ensures within { IfSome result (λ at. at < length others.now) }
{
    bytes
        .iter()
        .zip(others.iter())
        .position(|(byte, other)| *byte != *other)
}
