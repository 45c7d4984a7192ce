//! The text of a map with many ranges.
use anyhow::{Result, bail};
use scenario_words::hex_of;
use sha2::{Digest, Sha256};
use std::alloc::Global;

/// The most ranges that a text is made with.
const MOST: u64 = 1_000_000;

/// Zeros for the digits of a sum.
const ZEROS: &str = "0000000000000000000000000000000000000000000000000000000000000000";

/// The text of a map of blocks of 512 bytes, in which every second block from the first to the last is a range of its
/// own without a digest. There are so many ranges, and the counts and the sum are right.
pub fn text_of(alloc: Global, count: u64) -> Result<String> {
    if count > MOST {
        bail!("too many ranges");
    }
    let mut text = front_of(alloc, count)?;
    let back = back_of(alloc, count)?;
    let mut hasher = Sha256::new();
    hasher.update(text.as_bytes());
    hasher.update(ZEROS.as_bytes());
    hasher.update(back.as_bytes());
    text.push_str(&hex_of(alloc, &hasher.finalize())?)?;
    text.push_str(&back)?;
    Ok(text)
}

/// What stands in front of the sum.
fn front_of(alloc: Global, count: u64) -> Result<String> {
    let blocks = count.saturating_mul(2).saturating_sub(1);
    let size = blocks.saturating_mul(512);
    let mut text = String::from_str(alloc, "<?xml version=\"1.0\" ?>\n<bmap version=\"2.0\">\n")?;
    write!(text, "    <ImageSize> {size} </ImageSize>\n")?;
    text.push_str("    <BlockSize> 512 </BlockSize>\n")?;
    write!(text, "    <BlocksCount> {blocks} </BlocksCount>\n")?;
    write!(
        text,
        "    <MappedBlocksCount> {count} </MappedBlocksCount>\n"
    )?;
    text.push_str("    <ChecksumType> sha256 </ChecksumType>\n    <BmapFileChecksum> ")?;
    Ok(text)
}

/// What stands behind the sum.
fn back_of(alloc: Global, count: u64) -> Result<String> {
    let mut text = String::from_str(alloc, " </BmapFileChecksum>\n    <BlockMap>\n")?;
    for k in 0..count {
        let block = k.saturating_mul(2);
        write!(text, "        <Range> {block} </Range>\n")?;
    }
    text.push_str("    </BlockMap>\n</bmap>\n")?;
    Ok(text)
}
