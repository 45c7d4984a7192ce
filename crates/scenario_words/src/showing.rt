//! How bytes are shown.
use anyhow::Result;
use sha2::{Digest, Sha256};
use std::alloc::Global;

/// The most bytes that are shown themselves.
const SHOWN: usize = 64;

/// The answer of a step that has nothing to show.
pub fn done(alloc: Global) -> Result<String> {
    Ok(String::from_str(alloc, "ok")?)
}

/// How many bytes there are, and the bytes in hexadecimal; of more than 64 their SHA-256.
pub fn shown(alloc: Global, bytes: &[u8]) -> Result<String> {
    let len = bytes.len();
    if len == 0 {
        return Ok(String::from_str(alloc, "0 bytes")?);
    }
    if len > SHOWN {
        let digest = hex_of(alloc, &Sha256::digest(bytes))?;
        return Ok(format!(in alloc; "{len} bytes, sha256 {digest}")?);
    }
    let digits = hex_of(alloc, bytes)?;
    Ok(format!(in alloc; "{len} bytes {digits}")?)
}

/// Bytes in hexadecimal.
pub fn hex_of(alloc: Global, bytes: &[u8]) -> Result<String> {
    Ok(hex::encode(alloc, bytes)?)
}

/// The bytes from a place on, at most so many, as far as there are some.
pub fn part(bytes: &[u8], at: usize, len: usize) -> &[u8] {
    match bytes.get(at..) {
        Some(rest) => rest.get(..len).unwrap_or(rest),
        None => &[],
    }
}
