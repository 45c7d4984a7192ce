//! The lines of a map's text, each put behind the text so far.
ghost use Rattle.std.specs.Prelude.{◌≡◌, ℕ, ◌<◌, List, ◌++◌, OnOk, Some, decimal, map};
ghost use Rattle.hex.specs.Hex.{encode_lower};
ghost use Rattle.block_map.specs.Maps.{IsMap};
ghost use Rattle.bmap_writer.specs.Written.{attribute, back_lines, closing, element, ended, front_lines, number_lines};
ghost use Rattle.bmap_writer.specs.Written.{mapped_line, opening, range_blocks, range_line, text_of};

use base_fields::NoMemory;
use block_map::{BlockMap, Range};
use itoa::Buffer;

/// Puts a line and its LF.
fn put_line(text: &mut Vec<u8>, line: &[u8]) -> Result<(), NoMemory>
    ensures { OnOk result (text.new.items ≡ text.old.items ++ ended line.now) }
{
    text.extend_from_slice(line)?;
    text.push(b'\n')?;
    Ok(())
}

/// Puts the tag in front of an element's value.
pub(crate) fn put_opening(text: &mut Vec<u8>, name: &str) -> Result<(), NoMemory>
    ensures { OnOk result (text.new.items ≡ text.old.items ++ opening name.now) }
{
    text.extend_from_slice(b"    <")?;
    text.extend_from_slice(name.as_bytes())?;
    text.extend_from_slice(b"> ")?;
    Ok(())
}

/// Puts the tag behind an element's value, and the LF.
pub(crate) fn put_closing(text: &mut Vec<u8>, name: &str) -> Result<(), NoMemory>
    ensures { OnOk result (text.new.items ≡ text.old.items ++ ended (closing name.now)) }
{
    text.extend_from_slice(b" </")?;
    text.extend_from_slice(name.as_bytes())?;
    put_line(text, b">")?;
    Ok(())
}

/// Puts the line of an element.
fn put_element(text: &mut Vec<u8>, name: &str, value: &[u8]) -> Result<(), NoMemory>
    ensures { OnOk result (text.new.items ≡ text.old.items ++ ended (element name.now value.now)) }
{
    put_opening(text, name)?;
    text.extend_from_slice(value)?;
    put_closing(text, name)?;
    Ok(())
}

/// Puts the line of an element whose value is a number.
fn put_number(text: &mut Vec<u8>, name: &str, n: u64) -> Result<(), NoMemory>
    ensures { OnOk result (text.new.items ≡ text.old.items ++ ended (element name.now (decimal n))) }
{
    put_element(text, name, Buffer::new().format(n).as_bytes())?;
    Ok(())
}

/// Puts the line of how many blocks are in the ranges.
fn put_mapped(text: &mut Vec<u8>, map: &BlockMap) -> Result<(), NoMemory>
    requires { IsMap map.now }
    ensures { OnOk result (text.new.items ≡ text.old.items ++ ended (mapped_line map.now)) }
{
    put_number(text, "MappedBlocksCount", map.mapped_count())?;
    Ok(())
}

/// Puts the numbers of a map.
fn put_numbers(text: &mut Vec<u8>, map: &BlockMap) -> Result<(), NoMemory>
    requires { IsMap map.now }
    ensures { OnOk result (text.new.items ≡ text.old.items ++ text_of (number_lines map.now)) }
{
    put_number(text, "ImageSize", map.size)?;
    put_number(text, "BlockSize", u64::from(map.block))?;
    put_number(text, "BlocksCount", map.block_count())?;
    put_mapped(text, map)?;
    Ok(())
}

/// Puts the lines in front of that of the sum.
pub(crate) fn put_front(text: &mut Vec<u8>, map: &BlockMap) -> Result<(), NoMemory>
    requires { IsMap map.now }
    ensures { OnOk result (text.new.items ≡ text.old.items ++ text_of (front_lines map.now)) }
{
    put_line(text, b"<?xml version=\"1.0\" ?>")?;
    put_line(text, b"<bmap version=\"2.0\">")?;
    put_numbers(text, map)?;
    put_element(text, "ChecksumType", b"sha256")?;
    Ok(())
}

/// Puts a digest as an attribute.
fn put_digest(text: &mut Vec<u8>, digest: &[u8; 32]) -> Result<(), NoMemory>
    ensures { OnOk result (text.new.items ≡ text.old.items ++ attribute (Some digest.now)) }
{
    let mut digits = [0; 64];
    match hex::encode_to_slice(digest.as_slice(), &mut digits) {
        Ok(()) => {
            text.extend_from_slice(b" chksum=\"")?;
            text.extend_from_slice(&digits)?;
            text.extend_from_slice(b"\"")?;
            Ok(())
        }
        Err(_) => unreachable!(),
    }
}

/// Puts the attribute of a range, which is there where it has a digest.
fn put_attribute(text: &mut Vec<u8>, digest: &Option<[u8; 32]>) -> Result<(), NoMemory>
    ensures { OnOk result (text.new.items ≡ text.old.items ++ attribute digest.now) }
{
    if let Some(digest) = digest {
        put_digest(text, digest)?;
    }
    Ok(())
}

/// Puts the blocks of a range.
fn put_blocks(text: &mut Vec<u8>, range: &Range) -> Result<(), NoMemory>
    ensures { OnOk result (text.new.items ≡ text.old.items ++ range_blocks range.now) }
{
    text.extend_from_slice(Buffer::new().format(range.first).as_bytes())?;
    if range.first != range.last {
        text.extend_from_slice(b"-")?;
        text.extend_from_slice(Buffer::new().format(range.last).as_bytes())?;
    }
    Ok(())
}

/// Puts the line of a range.
fn put_range(text: &mut Vec<u8>, range: &Range) -> Result<(), NoMemory>
    ensures { OnOk result (text.new.items ≡ text.old.items ++ ended (range_line range.now)) }
{
    text.extend_from_slice(b"        <Range")?;
    put_attribute(text, &range.digest)?;
    text.extend_from_slice(b"> ")?;
    put_blocks(text, range)?;
    put_line(text, b" </Range>")?;
    Ok(())
}

/// Puts the lines of ranges.
fn put_ranges(text: &mut Vec<u8>, ranges: &[Range]) -> Result<(), NoMemory>
    ensures { OnOk result (text.new.items ≡ text.old.items ++ text_of (map range_line ranges.now)) }
{
    for range in ranges {
        put_range(text, range)?;
    }
    Ok(())
}

/// Puts the lines behind that of the sum.
pub(crate) fn put_back(text: &mut Vec<u8>, ranges: &[Range]) -> Result<(), NoMemory>
    ensures { OnOk result (text.new.items ≡ text.old.items ++ text_of (back_lines ranges.now)) }
{
    put_line(text, b"    <BlockMap>")?;
    put_ranges(text, ranges)?;
    put_line(text, b"    </BlockMap>")?;
    put_line(text, b"</bmap>")?;
    Ok(())
}
