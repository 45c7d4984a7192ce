//! Steps on sums and other small values.
use anyhow::{Result, bail};
use base_fields::{Span, crc32, guid_bytes, round_up};
use hex::FromHex;
use outside::Files;
use range_digest::{DigestFault, digest_of};
use region_pool::Pool;
use scenario_words::{Arguments, Contents, Setting, hex_of};
use sha2::{Digest, Sha256};
use std::alloc::Global;

/// A step on a sum or another small value.
#[derive(Debug, Drop)]
pub enum ValueStep {
    /// The CRC-32 of bytes.
    Crc { contents: Contents },
    /// The SHA-256 of bytes.
    Sha { contents: Contents },
    /// The digest of a span of a file.
    Digest { name: String, span: Span },
    /// The bytes of a GUID in the order of a GUID partition table, and the other way round.
    Guid { id: [u8; 16] },
    /// The least multiple that isn't below a number.
    RoundUp { number: u64, to: u64 },
}

impl ValueStep {
    /// The step of a verb, where it is one of these.
    pub fn read(alloc: Global, verb: &str, words: &mut Arguments) -> Result<Option<ValueStep>> {
        let step = match verb {
            "crc32" => ValueStep::Crc {
                contents: Contents::read(alloc, words)?,
            },
            "sha256" => ValueStep::Sha {
                contents: Contents::read(alloc, words)?,
            },
            "digest" => read_digest(words)?,
            "guid" => ValueStep::Guid {
                id: read_id(words)?,
            },
            "round-up" => ValueStep::RoundUp {
                number: words.number("a number")?,
                to: words.number("a number")?,
            },
            _ => return Ok(None),
        };
        Ok(Some(step))
    }

    /// Does it, and says what came of it.
    pub fn play(self, setting: &mut Setting) -> Result<String> {
        match self {
            ValueStep::Crc { contents } => crc(setting, &contents),
            ValueStep::Sha { contents } => sha(setting, &contents),
            ValueStep::Digest { name, span } => digest(setting, &name, span),
            ValueStep::Guid { id } => guid(setting.alloc, id),
            ValueStep::RoundUp { number, to } => rounded(setting.alloc, number, to),
        }
    }
}

fn read_digest(words: &mut Arguments) -> Result<ValueStep> {
    let name = words.text("a file")?;
    let at = words.number("a place")?;
    let len = words.number("a length")?;
    Ok(ValueStep::Digest {
        name,
        span: Span { at, len },
    })
}

/// Sixteen bytes in hexadecimal.
pub fn read_id(words: &mut Arguments) -> Result<[u8; 16]> {
    let text = words.text("16 bytes in hexadecimal")?;
    match <[u8; 16] as FromHex>::from_hex(text.as_str()) {
        Ok(id) => Ok(id),
        Err(_) => bail!("no 32 hexadecimal digits"),
    }
}

fn crc(setting: &Setting, contents: &Contents) -> Result<String> {
    let sum = crc32(&contents.bytes(setting.alloc, &setting.files)?);
    Ok(format!(in setting.alloc; "crc32 {sum:08x}")?)
}

fn sha(setting: &Setting, contents: &Contents) -> Result<String> {
    let bytes = contents.bytes(setting.alloc, &setting.files)?;
    let digest = hex_of(setting.alloc, &Sha256::digest(&bytes))?;
    Ok(format!(in setting.alloc; "sha256 {digest}")?)
}

fn digest(setting: &mut Setting, name: &str, span: Span) -> Result<String> {
    let answer = if setting.trickles {
        let mut files = setting.take_trickled();
        let answer = digest_in(setting.alloc, &mut files, name, span);
        setting.put_back(files);
        answer?
    } else {
        digest_in(setting.alloc, &mut setting.files, name, span)?
    };
    match answer {
        Ok(digest) => {
            let digest = hex_of(setting.alloc, &digest)?;
            Ok(format!(in setting.alloc; "digest {digest}")?)
        }
        Err(fault) => Ok(format!(in setting.alloc; "no digest: {fault:?}")?),
    }
}

/// A pool of one of the smallest buffers.
fn pool_of_one(alloc: Global) -> Result<Pool> {
    Ok(Pool::new(alloc, 0, 1, 16_384)?)
}

/// The digest by a pool of one buffer.
fn digest_in<F: Files>(
    alloc: Global,
    files: &mut F,
    name: &str,
    span: Span,
) -> Result<Result<[u8; 32], DigestFault>> {
    if span.at.checked_add(span.len).is_none() {
        bail!("past 2^64");
    }
    let mut pool = pool_of_one(alloc)?;
    if pool.free() == 0 {
        bail!("no buffer");
    }
    Ok(digest_of(files, name, span, &mut pool))
}

fn guid(alloc: Global, id: [u8; 16]) -> Result<String> {
    let bytes = hex_of(alloc, &guid_bytes(id))?;
    Ok(format!(in alloc; "guid {bytes}")?)
}

fn rounded(alloc: Global, number: u64, to: u64) -> Result<String> {
    if to == 0 {
        bail!("no multiple of zero");
    }
    let Some(most) = (u64::MAX / to).checked_mul(to) else {
        bail!("no such multiple");
    };
    if number > most {
        bail!("no such multiple");
    }
    let least = round_up(number, to);
    Ok(format!(in alloc; "rounded {least}")?)
}
