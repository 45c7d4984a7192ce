//! What the text of a value stands for.
ghost use Rattle.std.specs.Prelude.{◌≡◌, ◌≤◌, IfSome, ◌+◌, ◌-◌, ◌^◌, ◌*◌, map, reverse, length};
ghost use Rattle.std.specs.Prelude.{IsTrue, take, drop};
ghost use Rattle.std.specs.Char.{digit_value, is_ascii_digit, is_ascii_hexdigit};
ghost use Rattle.std.specs.Char.{to_ascii_lowercase};
ghost use Rattle.std.specs.List.{list_all, prefix_len};
ghost use Rattle.conf_lexer.specs.Text.{is_space};
ghost use Rattle.base_fields.specs.Numbers.{is_between};
ghost use Rattle.conf_values.specs.Values.{bytes_of, decimal_of, hexadecimal_of, hole_of};
ghost use Rattle.conf_values.specs.Values.{is_enclosed, is_decimal, is_hexadecimal};
ghost use Rattle.conf_values.specs.Values.{is_partition_name, is_word, front_trimmed};
ghost use Rattle.conf_values.specs.Values.{end_trimmed, has_needless_zero, number_between, number_of};
ghost use Rattle.conf_values.specs.Values.{power_between, sector_of, semicolon_of, size_from};
ghost use Rattle.conf_values.specs.Values.{size_of, sizes_of, small_value, table_of, trimmed_size};
ghost use Rattle.conf_values.specs.Values.{truth_of, type_of, unit_of};
ghost use Rattle.uuid.specs.Text.{parsed};

use base_fields::TableKind;
use conf_lexer::is_space_byte;
use uuid::Uuid;

/// A run of bytes of a partition's file that stays out of the image.
#[derive(Clone, Copy, Debug, PartialEq, Eq)]
pub struct Hole {
    /// Its first byte.
    pub from: u64,
    /// The byte behind its last one.
    pub to: u64,
}

/// The greatest size of a text, in bytes.
pub const MOST_SIZE: u64 = 1 << 43;

// 0FC63DAF-8483-4772-8E79-3D69D8477DE4, C12A7328-F81F-11D2-BA4B-00A0C93EC93B and
// 0657FD6D-A4AB-43C4-84E5-0933C84B4F4F.
/// The type of Linux file system data, in the order of RFC 9562.
pub const LINUX_DATA: [u8; 16] = [
    0x0F, 0xC6, 0x3D, 0xAF, 0x84, 0x83, 0x47, 0x72, 0x8E, 0x79, 0x3D, 0x69, 0xD8, 0x47, 0x7D, 0xE4,
];

const EFI_SYSTEM: [u8; 16] = [
    0xC1, 0x2A, 0x73, 0x28, 0xF8, 0x1F, 0x11, 0xD2, 0xBA, 0x4B, 0x00, 0xA0, 0xC9, 0x3E, 0xC9, 0x3B,
];

const LINUX_SWAP: [u8; 16] = [
    0x06, 0x57, 0xFD, 0x6D, 0xA4, 0xAB, 0x43, 0xC4, 0x84, 0xE5, 0x09, 0x33, 0xC8, 0x4B, 0x4F, 0x4F,
];

// The value of a digit or a letter, as in a base of up to 36, or 36.
fn digit(byte: u8) -> u64
    ensures { result ≡ digit_value byte }
{
    match byte {
        b'0'..=b'9' => u64::from(byte - b'0'),
        b'A'..=b'Z' => u64::from(byte - b'A') + 10,
        b'a'..=b'z' => u64::from(byte - b'a') + 10,
        _ => 36,
    }
}

// The number that the digits write, where a u64 holds it.
fn small_value(digits: &[u8], radix: u64) -> Option<u64>
    requires { 1 ≤ radix }
    ensures { result ≡ small_value radix digits.now }
{
    let mut value: u64 = 0;
    for byte in digits {
        value = value.checked_mul(radix)?.checked_add(digit(*byte))?;
    }
    Some(value)
}

fn decimal(text: &[u8]) -> Option<u64>
    ensures { result ≡ decimal_of text.now }
{
    if is_decimal(text) {
        small_value(text, 10)
    } else {
        None
    }
}

fn is_decimal(text: &[u8]) -> bool
    ensures { result ≡ is_decimal text.now }
{
    all_digits(text) && !text.is_empty() && !has_needless_zero(text)
}

fn all_digits(text: &[u8]) -> bool
    ensures { result ≡ list_all is_ascii_digit text.now }
{
    text.iter().all(|byte| byte.is_ascii_digit())
}

fn has_needless_zero(text: &[u8]) -> bool
    ensures { result ≡ has_needless_zero text.now }
{
    text.len() > 1 && text[0] == b'0'
}

fn hexadecimal(digits: &[u8]) -> Option<u64>
    ensures { result ≡ hexadecimal_of digits.now }
{
    if is_hexadecimal(digits) {
        small_value(digits, 16)
    } else {
        None
    }
}

fn is_hexadecimal(digits: &[u8]) -> bool
    ensures { result ≡ is_hexadecimal digits.now }
{
    all_hexadecimal(digits) && !digits.is_empty()
}

fn all_hexadecimal(digits: &[u8]) -> bool
    ensures { result ≡ list_all is_ascii_hexdigit digits.now }
{
    digits.iter().all(|byte| byte.is_ascii_hexdigit())
}

// The number of a text: decimal, or `0x` and hexadecimal digits.
fn number(text: &[u8]) -> Option<u64>
    ensures { result ≡ number_of text.now }
{
    match text.strip_prefix(b"0x") {
        Some(digits) => hexadecimal(digits),
        None => decimal(text),
    }
}

fn unit(letter: u8) -> Option<u64>
    ensures { result ≡ unit_of letter }
{
    match letter {
        b'k' | b'K' => Some(1 << 10),
        b'M' => Some(1 << 20),
        b'G' => Some(1 << 30),
        b's' => Some(512),
        _ => None,
    }
}

fn bytes_of(unit: u64, count: u64) -> Option<u64>
    requires { 1 ≤ unit }
    ensures { result ≡ bytes_of unit count }
{
    let size = count.checked_mul(unit)?;
    if size <= MOST_SIZE { Some(size) } else { None }
}

// The bytes of a size: a number, and behind it a letter for its unit or nothing.
fn size(text: &[u8]) -> Option<u64>
    ensures { result ≡ size_of text.now }
{
    let (last, front) = text.split_last()?;
    match unit(*last) {
        Some(unit) => bytes_of(unit, number(front)?),
        None => bytes_of(1, number(text)?),
    }
}

/// The number of a text, decimal without needless leading zeros or `0x` and hexadecimal digits,
/// where it is from `least` to `most`.
pub fn number_between(text: &[u8], least: u64, most: u64) -> Option<u64>
    ensures number { result ≡ number_between least most text.now }
    ensures within { IfSome result (λ n. n ≤ most) }
{
    match number(text) {
        Some(n) if least <= n && n <= most => Some(n),
        _ => None,
    }
}

/// The size of a text in bytes, where it is at least `least`: a number, and behind it `k` or `K`,
/// `M`, `G` or `s` (512 bytes) or nothing. It is at most 2^43.
pub fn size_from(text: &[u8], least: u64) -> Option<u64>
    ensures { result ≡ size_from least text.now }
{
    match size(text) {
        Some(n) if least <= n => Some(n),
        _ => None,
    }
}

/// The size of a text, where it is a power of two from `least` to `most`.
pub fn power_between(text: &[u8], least: u32, most: u32) -> Option<u32>
    ensures { result ≡ power_between least most text.now }
{
    match size(text) {
        Some(n) if n.is_power_of_two() && u64::from(least) <= n && n <= u64::from(most) => {
            Some(n as u32)
        }
        _ => None,
    }
}

/// The size of a text, where it is 512, or 4096 and that is allowed.
pub fn sector(text: &[u8], wide: bool) -> Option<u32>
    ensures { result ≡ sector_of wide text.now }
{
    match size(text) {
        Some(512) => Some(512),
        Some(4096) if wide => Some(4096),
        _ => None,
    }
}

// Whether a text is this word but for the case of its letters. The word is in small letters.
fn is_word(text: &str, word: &str) -> bool
    requires { map to_ascii_lowercase word.now ≡ word.now }
    ensures { result ≡ is_word word.now text.now }
{
    text.eq_ignore_ascii_case(word)
}

/// A truth value: true, yes, on, false, no or off, in any case of letters.
pub fn truth(text: &str) -> Option<bool>
    ensures { result ≡ truth_of text.now }
{
    if is_word(text, "true") || is_word(text, "yes") || is_word(text, "on") {
        Some(true)
    } else if is_word(text, "false") || is_word(text, "no") || is_word(text, "off") {
        Some(false)
    } else {
        None
    }
}

/// A kind of partition table.
pub fn table(text: &str) -> Option<TableKind>
    ensures { result ≡ table_of text.now }
{
    match text {
        "none" => Some(TableKind::Bare),
        "mbr" | "dos" => Some(TableKind::Mbr),
        "gpt" => Some(TableKind::Gpt),
        "hybrid" => Some(TableKind::Hybrid),
        _ => None,
    }
}

/// An identifier (RFC 9562) as its 16 bytes.
pub fn identifier(text: &str) -> Option<[u8; 16]>
    ensures { result ≡ parsed text.now }
{
    match Uuid::try_parse(text) {
        Ok(id) => Some(*id.as_bytes()),
        Err(_) => None,
    }
}

/// A type of a GUID partition: an identifier, or L, U or S.
pub fn partition_type(text: &str) -> Option<[u8; 16]>
    ensures { result ≡ type_of text.now }
{
    match text {
        "L" => Some(LINUX_DATA),
        "U" => Some(EFI_SYSTEM),
        "S" => Some(LINUX_SWAP),
        _ => identifier(text),
    }
}

fn without_front(text: &[u8]) -> &[u8]
    ensures { result.now ≡ front_trimmed text.now }
{
    &text[spaces(text)..]
}

fn spaces(text: &[u8]) -> usize
    ensures count { result ≡ prefix_len is_space text.now }
    ensures within { result ≤ length text.now }
{
    text.iter().take_while(|byte| is_space_byte(**byte)).count()
}

fn without_end(text: &[u8]) -> &[u8]
    ensures { result.now ≡ end_trimmed text.now }
{
    &text[..text.len() - end_spaces(text)]
}

fn end_spaces(text: &[u8]) -> usize
    ensures count { result ≡ prefix_len is_space (reverse text.now) }
    ensures within { result ≤ length text.now }
{
    text.iter()
        .rev()
        .take_while(|byte| is_space_byte(**byte))
        .count()
}

fn trimmed_size(text: &[u8]) -> Option<u64>
    ensures { result ≡ trimmed_size text.now }
{
    size(without_end(without_front(text)))
}

fn semicolon(text: &[u8]) -> usize
    ensures count { result ≡ semicolon_of text.now }
    ensures within { result ≤ length text.now }
{
    text.iter().take_while(|byte| **byte != b';').count()
}

fn sizes(text: &[u8]) -> Option<Hole>
    ensures { result ≡ sizes_of text.now }
{
    let at = semicolon(text);
    let from = trimmed_size(&text[..at])?;
    if at == text.len() {
        return None;
    }
    let to = trimmed_size(&text[at + 1..])?;
    Some(Hole { from, to })
}

/// A hole: two sizes with a semicolon between them, in parentheses. White space may stand inside.
pub fn hole_of(text: &[u8]) -> Option<Hole>
    ensures { result ≡ hole_of text.now }
{
    if !is_enclosed(text) {
        return None;
    }
    sizes(&text[1..text.len() - 1])
}

fn is_enclosed(text: &[u8]) -> bool
    ensures test { result ≡ is_enclosed text.now }
    ensures room { IsTrue result → 2 ≤ length text.now }
{
    text.len() >= 2 && text[0] == b'(' && text[text.len() - 1] == b')'
}

/// Whether a partition may have this name: 1 to 36 characters of 0x20 to 0x7E.
pub fn is_partition_name(text: &[u8]) -> bool
    ensures { result ≡ is_partition_name text.now }
{
    1 <= text.len() && text.len() <= 36 && is_plain(text)
}

fn is_plain(text: &[u8]) -> bool
    ensures { result ≡ list_all (is_between 32 126) text.now }
{
    text.iter().all(|byte| 32 <= *byte && *byte <= 126)
}
