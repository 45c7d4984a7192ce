ghost use Rattle.std.specs.Prelude.{◌≡◌, ℕ, ◌+◌, ◌-◌, ◌*◌, ◌/◌, ◌^◌, ◌<◌, ◌≤◌, ◌≢◌, length, drop};
ghost use Rattle.byteorder.specs.Endian.{little_bytes, little_number};
ghost use Rattle.base_fields.specs.Fields.{written};

use byteorder::{ByteOrder, LittleEndian};

/// Writes a number of two bytes at `at`, the lowest byte first.
pub fn put_u16(room: &mut [u8], at: usize, value: u16)
    requires { at + 2 ≤ length room.old }
    ensures { room.new ≡ written room.old at (little_bytes 2 value) }
{
    LittleEndian::write_u16(&mut room[at..], value);
}

/// Writes a number of four bytes at `at`, the lowest byte first.
pub fn put_u32(room: &mut [u8], at: usize, value: u32)
    requires { at + 4 ≤ length room.old }
    ensures { room.new ≡ written room.old at (little_bytes 4 value) }
{
    LittleEndian::write_u32(&mut room[at..], value);
}

/// Writes a number of eight bytes at `at`, the lowest byte first.
pub fn put_u64(room: &mut [u8], at: usize, value: u64)
    requires { at + 8 ≤ length room.old }
    ensures { room.new ≡ written room.old at (little_bytes 8 value) }
{
    LittleEndian::write_u64(&mut room[at..], value);
}

/// Writes bytes at `at`.
pub fn put_bytes(room: &mut [u8], at: usize, bytes: &[u8])
    requires { at + length bytes.now ≤ length room.old }
    ensures { room.new ≡ written room.old at bytes.now }
{
    room[at..at + bytes.len()].copy_from_slice(bytes);
}

/// The number of two bytes at `at`, the lowest byte first.
pub fn get_u16(bytes: &[u8], at: usize) -> u16
    requires { at + 2 ≤ length bytes.now }
    ensures { result ≡ little_number 2 (drop at bytes.now) }
{
    LittleEndian::read_u16(&bytes[at..])
}

/// The number of four bytes at `at`, the lowest byte first.
pub fn get_u32(bytes: &[u8], at: usize) -> u32
    requires { at + 4 ≤ length bytes.now }
    ensures { result ≡ little_number 4 (drop at bytes.now) }
{
    LittleEndian::read_u32(&bytes[at..])
}

/// The number of eight bytes at `at`, the lowest byte first.
pub fn get_u64(bytes: &[u8], at: usize) -> u64
    requires { at + 8 ≤ length bytes.now }
    ensures { result ≡ little_number 8 (drop at bytes.now) }
{
    LittleEndian::read_u64(&bytes[at..])
}
