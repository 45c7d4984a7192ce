//! One text: its length, its bytes and its tokens.
ghost use Rattle.std.specs.Prelude.{◌≡◌, ℕ, ◌+◌, ◌-◌, ◌≤◌, All, IfErr, IfOk, length};
ghost use Rattle.conf_lexer.specs.Standing.{StandsIn};
ghost use Rattle.conf_lexer.specs.Text.{tokens_of};
ghost use Rattle.outside.specs.Counts.{NoneFell};
ghost use Rattle.outside.specs.Files.{IsThere, bytes_of};
ghost use Rattle.base_fields.specs.Results.{or_else, refused_by};
ghost use Rattle.conf_texts.specs.Answers.{Answers, HasCause, IsNoFileFault, LacksBelow};
ghost use Rattle.conf_texts.specs.Texts.{HasLength, in_limit, most_bytes, nothing_read};
ghost use Rattle.conf_texts.specs.Texts.{text_read, with_text};

use crate::WalkFault;
use base_fields::{Bytes, List, Name, NoMemory};
use conf_items::Outline;
use conf_lexer::{LexFault, Token, lex};
use outside::{FileErr, Files, FillFault, fill};
use std::alloc::{AllocError, Global};

/// The most bytes that all texts may have.
const MOST_BYTES: u64 = 1 << 20;

/// A text that was read.
#[derive(Debug, Drop)]
pub struct Text {
    pub name: Name,
    /// Its number in the order of reading, from 0.
    pub number: usize,
    pub bytes: Bytes,
    pub tokens: List<Token>,
}

/// What was read up to here.
#[derive(Debug, Drop)]
pub struct Reading {
    pub outline: Outline,
    /// The sum of the lengths of all texts.
    pub total: u64,
    /// The names of the texts, in the order of reading.
    pub names: List<Name>,
}

impl Reading {
    /// No text was read yet. Takes no memory.
    pub fn new(alloc: Global) -> Reading
        ensures { result ≡ nothing_read }
    {
        Reading {
            outline: Outline::new(alloc),
            total: 0,
            names: List::new(alloc),
        }
    }

    /// With one more text. Takes memory.
    pub fn add(self, alloc: Global, text: &Text) -> Result<Reading, NoMemory>
        requires { self.total + length text.now.bytes ≤ most_bytes }
        ensures { IfOk result (λ after. after ≡ with_text self text.now) }
    {
        let Reading {
            outline,
            total,
            mut names,
        } = self;
        names.push(Name::of(alloc, text.name.text())?)?;
        Ok(Reading {
            outline,
            total: total + text.bytes.bytes().len() as u64,
            names,
        })
    }
}

/// The refusal of a place in the text of that name. Takes memory.
pub fn bad_text(alloc: Global, name: &str, place: u64) -> Result<WalkFault, NoMemory>
    ensures { IfOk result (λ fault. fault ≡ WalkFault.BadText name.now place) }
{
    Ok(WalkFault::BadText {
        name: Name::of(alloc, name)?,
        place,
    })
}

fn missing(alloc: Global, name: &str) -> Result<WalkFault, NoMemory>
    ensures { IfOk result (λ fault. fault ≡ WalkFault.Missing name.now) }
{
    Ok(WalkFault::Missing {
        name: Name::of(alloc, name)?,
    })
}

fn short(alloc: Global, name: &str, at: u64) -> Result<WalkFault, NoMemory>
    ensures { IfOk result (λ fault. fault ≡ WalkFault.SourceShort name.now at) }
{
    Ok(WalkFault::SourceShort {
        name: Name::of(alloc, name)?,
        at,
    })
}

// How many bytes the text of that name has.
fn length_of<F: Files>(alloc: Global, files: &mut F, name: &str) -> Result<u64, WalkFault>
    ensures none_fell { NoneFell (F.counts files.old) (F.counts files.new) }
    ensures cause { IfErr result (HasCause (F.counts files.old) (F.counts files.new)) }
    ensures same_files { F.file files.new ≡ F.file files.old }
    ensures lacks { (count : ℕ) → IfErr result (LacksBelow count) }
    ensures there { F.told → HasLength (F.file files.old) name.now result }
{
    match files.length(name) {
        Ok(len) => Ok(len),
        Err(FileErr::Missing) => Err(missing(alloc, name)?),
        Err(FileErr::Failed) => Err(WalkFault::FileFault),
    }
}

// The sum of all lengths with one more, where it is not past the limit.
fn total_with(total: u64, len: u64) -> Result<u64, WalkFault>
    ensures { result ≡ in_limit (total + len) }
{
    let sum = total.saturating_add(len);
    if sum > MOST_BYTES {
        return Err(WalkFault::TooLong { total: sum });
    }
    Ok(sum)
}

// Room for so many bytes.
fn room(alloc: Global, len: usize) -> Result<Vec<u8>, AllocError>
    ensures { IfOk result (λ bytes. length bytes.items ≡ len) }
{
    vec![in alloc; 0; len]
}

// The bytes of the text of that name, which has so many.
fn read_bytes<F: Files>(
    alloc: Global,
    files: &mut F,
    name: &str,
    len: u64,
) -> Result<Bytes, WalkFault>
    requires limit { len ≤ most_bytes }
    requires there { F.told → IsThere (F.file files.old) name.now (len ≡ length (bytes_of (F.file files.old) name.now)) }
    ensures none_fell { NoneFell (F.counts files.old) (F.counts files.new) }
    ensures cause { IfErr result (HasCause (F.counts files.old) (F.counts files.new)) }
    ensures same_files { F.file files.new ≡ F.file files.old }
    ensures lacks { IfErr result (LacksBelow len) }
    ensures long { IfOk result (λ bytes. length bytes ≡ len) }
    ensures there { F.told → Answers (or_else (F.file files.old name.now) (WalkFault.Missing name.now)) result }
{
    let Ok(mut text) = room(alloc, len as usize) else {
        return Err(WalkFault::NoMemory);
    };
    match fill(files, name, 0, &mut text) {
        Ok(()) => Ok(Bytes::from_vec(text)),
        Err(FillFault::Missing) => Err(missing(alloc, name)?),
        Err(FillFault::Short { at }) => Err(short(alloc, name, at)?),
        Err(FillFault::Failed) => Err(WalkFault::FileFault),
    }
}

// The tokens of the text of that name.
fn tokens_in(alloc: Global, name: &str, bytes: &[u8]) -> Result<List<Token>, WalkFault>
    ensures answers { Answers (refused_by (WalkFault.BadText name.now) (tokens_of bytes.now)) result }
    ensures stands { IfOk result (All (StandsIn bytes.now)) }
    ensures count { IfOk result (λ tokens. length tokens ≤ length bytes.now) }
    ensures fault { IfErr result IsNoFileFault }
{
    match lex(alloc, bytes) {
        Ok(tokens) => Ok(tokens),
        Err(LexFault::BadText { place }) => Err(bad_text(alloc, name, place)?),
        Err(LexFault::NoMemory) => Err(WalkFault::NoMemory),
    }
}

/// Reads the text of that name and finds its tokens. Takes memory.
pub fn read_text<F: Files>(
    alloc: Global,
    files: &mut F,
    name: &str,
    reading: &Reading,
) -> Result<Text, WalkFault>
    ensures none_fell { NoneFell (F.counts files.old) (F.counts files.new) }
    ensures cause { IfErr result (HasCause (F.counts files.old) (F.counts files.new)) }
    ensures same_files { F.file files.new ≡ F.file files.old }
    ensures limit { IfOk result (λ text. reading.now.total + length text.bytes ≤ most_bytes) }
    ensures lacks { IfErr result (LacksBelow (most_bytes - reading.now.total)) }
    ensures stands { IfOk result (λ text. All (StandsIn text.bytes) text.tokens) }
    ensures count { IfOk result (λ text. length text.tokens ≤ length text.bytes) }
    ensures answers { F.told → Answers (text_read (F.file files.old) name.now reading.now) result }
{
    let len = length_of(alloc, files, name)?;
    total_with(reading.total, len)?;
    let bytes = read_bytes(alloc, files, name, len)?;
    let tokens = tokens_in(alloc, name, bytes.bytes())?;
    Ok(Text {
        name: Name::of(alloc, name)?,
        number: reading.names.len(),
        bytes,
        tokens,
    })
}
