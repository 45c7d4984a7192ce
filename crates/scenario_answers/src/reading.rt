//! Answers from words.
use answer_lines::{Answer, Report};
use anyhow::{Result, bail};
use base_fields::Name;
use hex::FromHex;
use journal_format::JobId;
use scenario_devices::device_of;
use scenario_words::Arguments;
use std::alloc::Global;

/// The answer of these words: its name and its fields in their order, a digest in hexadecimal. `Done` has how many
/// images were built.
pub fn read_answer(alloc: Global, words: &mut Arguments) -> Result<Answer> {
    let kind = words.text("an answer")?;
    if let Some(answer) = bare_answer(&kind, words)? {
        return Ok(answer);
    }
    if let Some(answer) = conf_answer(alloc, &kind, words)? {
        return Ok(answer);
    }
    if let Some(answer) = layout_answer(alloc, &kind, words)? {
        return Ok(answer);
    }
    match other_answer(alloc, &kind, words)? {
        Some(answer) => Ok(answer),
        None => bail!("no such answer: {kind}"),
    }
}

/// An answer without fields, and `Done`.
fn bare_answer(kind: &str, words: &mut Arguments) -> Result<Option<Answer>> {
    let answer = match kind {
        "Done" => Answer::Done(Report::Built {
            images: words.number("images")?,
        }),
        "Usage" => Answer::Usage,
        "NoTable" => Answer::NoTable,
        "NoJournal" => Answer::NoJournal,
        "FileFault" => Answer::FileFault,
        "NandFault" => Answer::NandFault,
        "NoMemory" => Answer::NoMemory,
        "PrintFault" => Answer::PrintFault,
        _ => return Ok(None),
    };
    Ok(Some(answer))
}

/// An answer about a configuration.
fn conf_answer(alloc: Global, kind: &str, words: &mut Arguments) -> Result<Option<Answer>> {
    if let Some(answer) = text_answer(alloc, kind, words)? {
        return Ok(Some(answer));
    }
    graph_answer(alloc, kind, words)
}

/// An answer about what is laid out.
fn layout_answer(alloc: Global, kind: &str, words: &mut Arguments) -> Result<Option<Answer>> {
    if let Some(answer) = part_answer(alloc, kind, words)? {
        return Ok(Some(answer));
    }
    image_answer(alloc, kind, words)
}

/// Any other answer.
fn other_answer(alloc: Global, kind: &str, words: &mut Arguments) -> Result<Option<Answer>> {
    if let Some(answer) = map_answer(kind, words)? {
        return Ok(Some(answer));
    }
    if let Some(answer) = table_answer(kind, words)? {
        return Ok(Some(answer));
    }
    if let Some(answer) = copy_answer(alloc, kind, words)? {
        return Ok(Some(answer));
    }
    if let Some(answer) = device_answer(kind, words)? {
        return Ok(Some(answer));
    }
    file_answer(alloc, kind, words)
}

/// An answer about the texts.
fn text_answer(alloc: Global, kind: &str, words: &mut Arguments) -> Result<Option<Answer>> {
    let answer = match kind {
        "BadText" => Answer::BadText {
            name: read_name(alloc, words)?,
            place: words.number("place")?,
        },
        "UnknownKey" => Answer::UnknownKey {
            name: read_name(alloc, words)?,
            place: words.number("place")?,
        },
        "BadValue" => Answer::BadValue {
            name: read_name(alloc, words)?,
            place: words.number("place")?,
        },
        "Unset" => Answer::Unset {
            var: read_name(alloc, words)?,
        },
        "DeepInclude" => Answer::DeepInclude {
            name: read_name(alloc, words)?,
        },
        "TooLong" => Answer::TooLong {
            total: words.number("total")?,
        },
        _ => return Ok(None),
    };
    Ok(Some(answer))
}

/// An answer about the images.
fn graph_answer(alloc: Global, kind: &str, words: &mut Arguments) -> Result<Option<Answer>> {
    let answer = match kind {
        "TooMany" => Answer::TooMany {
            count: words.number("count")?,
            limit: words.number("limit")?,
        },
        "NoKind" => Answer::NoKind {
            image: read_name(alloc, words)?,
            count: words.number("count")?,
        },
        "NoFlash" => Answer::NoFlash {
            image: read_name(alloc, words)?,
        },
        "NameClash" => Answer::NameClash {
            name: read_name(alloc, words)?,
        },
        "Cycle" => Answer::Cycle {
            name: read_name(alloc, words)?,
        },
        "NoImage" => Answer::NoImage {
            name: read_name(alloc, words)?,
        },
        _ => return Ok(None),
    };
    Ok(Some(answer))
}

/// An answer about a partition.
fn part_answer(alloc: Global, kind: &str, words: &mut Arguments) -> Result<Option<Answer>> {
    let answer = match kind {
        "Misaligned" => Answer::Misaligned {
            part: read_name(alloc, words)?,
            value: words.number("value")?,
            align: words.number("align")?,
        },
        "BadHoles" => Answer::BadHoles {
            part: read_name(alloc, words)?,
            index: words.number("index")?,
        },
        "BadAutoresize" => Answer::BadAutoresize {
            part: read_name(alloc, words)?,
            room: words.number("room")?,
            least: words.number("least")?,
        },
        "FileTooLarge" => Answer::FileTooLarge {
            part: read_name(alloc, words)?,
            has: words.number("has")?,
            limit: words.number("limit")?,
        },
        "NoSize" => Answer::NoSize {
            part: read_name(alloc, words)?,
        },
        "TooFar" => Answer::TooFar {
            part: read_name(alloc, words)?,
            number: words.number("number")?,
            limit: words.number("limit")?,
        },
        _ => return Ok(None),
    };
    Ok(Some(answer))
}

/// An answer about an image.
fn image_answer(alloc: Global, kind: &str, words: &mut Arguments) -> Result<Option<Answer>> {
    let answer = match kind {
        "Overlap" => Answer::Overlap {
            a: read_name(alloc, words)?,
            b: read_name(alloc, words)?,
        },
        "ImageTooSmall" => Answer::ImageTooSmall {
            has: words.number("has")?,
            needs: words.number("needs")?,
        },
        "TooManyEntries" => Answer::TooManyEntries {
            count: words.number("count")?,
        },
        "NotOnBlock" => Answer::NotOnBlock {
            part: read_name(alloc, words)?,
            value: words.number("value")?,
            pebsize: words.number("pebsize")?,
        },
        "PastFlash" => Answer::PastFlash {
            part: read_name(alloc, words)?,
            end: words.number("end")?,
            limit: words.number("limit")?,
        },
        "PieceTooSmall" => Answer::PieceTooSmall {
            needs: words.number("needs")?,
            limit: words.number("limit")?,
        },
        "TooManyPieces" => Answer::TooManyPieces {
            count: words.number("count")?,
            limit: words.number("limit")?,
        },
        _ => return Ok(None),
    };
    Ok(Some(answer))
}

/// An answer about a map.
fn map_answer(kind: &str, words: &mut Arguments) -> Result<Option<Answer>> {
    let answer = match kind {
        "BadMap" => Answer::BadMap {
            place: words.number("place")?,
        },
        "OtherVersion" => Answer::OtherVersion {
            place: words.number("place")?,
        },
        "OtherDigest" => Answer::OtherDigest {
            place: words.number("place")?,
        },
        "BadCounts" => Answer::BadCounts {
            want: words.number("want")?,
            got: words.number("got")?,
        },
        "SumDiffers" => Answer::SumDiffers {
            want: read_digest(words)?,
            got: read_digest(words)?,
        },
        _ => return Ok(None),
    };
    Ok(Some(answer))
}

/// An answer about a table or a sparse file.
fn table_answer(kind: &str, words: &mut Arguments) -> Result<Option<Answer>> {
    let answer = match kind {
        "BadGpt" => Answer::BadGpt {
            at: words.number("at")?,
        },
        "BadSum" => Answer::BadSum {
            at: words.number("at")?,
            want: words.word("want")?,
            got: words.word("got")?,
        },
        "BadChain" => Answer::BadChain {
            at: words.number("at")?,
        },
        "BadChunk" => Answer::BadChunk {
            k: words.word("k")?,
        },
        "Counts" => Answer::Counts {
            want: words.number("want")?,
            got: words.number("got")?,
        },
        "Short" => Answer::Short {
            at: words.number("at")?,
        },
        "BadMagic" => Answer::BadMagic {
            at: words.number("at")?,
        },
        _ => return Ok(None),
    };
    Ok(Some(answer))
}

/// An answer about a copy.
fn copy_answer(alloc: Global, kind: &str, words: &mut Arguments) -> Result<Option<Answer>> {
    let answer = match kind {
        "Compressed" => Answer::Compressed {
            name: read_name(alloc, words)?,
        },
        "TargetTooSmall" => Answer::TargetTooSmall {
            has: words.number("has")?,
            needs: words.number("needs")?,
        },
        "TooManyUnits" => Answer::TooManyUnits {
            count: words.number("count")?,
            limit: words.number("limit")?,
        },
        "ImageStale" => Answer::ImageStale {
            has: words.number("has")?,
            needs: words.number("needs")?,
        },
        "SizeDiffers" => Answer::SizeDiffers {
            name: read_name(alloc, words)?,
            has: words.number("has")?,
            needs: words.number("needs")?,
        },
        "NoRoom" => Answer::NoRoom {
            good: words.number("good")?,
            needs: words.number("needs")?,
        },
        _ => return Ok(None),
    };
    Ok(Some(answer))
}

/// An answer about the devices of a copy.
fn device_answer(kind: &str, words: &mut Arguments) -> Result<Option<Answer>> {
    let answer = match kind {
        "JournalHeld" => Answer::JournalHeld {
            kept: read_job(words)?,
            finished: words.truth("finished")?,
        },
        "JournalForeign" => Answer::JournalForeign {
            kept: read_job(words)?,
            given: read_job(words)?,
            length: words.number("length")?,
        },
        "DeviceFault" => Answer::DeviceFault {
            dev: device_of(&words.text("target or journal")?)?,
        },
        _ => return Ok(None),
    };
    Ok(Some(answer))
}

/// An answer about a file or a range.
fn file_answer(alloc: Global, kind: &str, words: &mut Arguments) -> Result<Option<Answer>> {
    let answer = match kind {
        "Missing" => Answer::Missing {
            name: read_name(alloc, words)?,
        },
        "SourceShort" => Answer::SourceShort {
            name: read_name(alloc, words)?,
            at: words.number("at")?,
        },
        "RangeDiffers" => Answer::RangeDiffers {
            range: words.number("range")?,
            want: read_digest(words)?,
            got: read_digest(words)?,
        },
        "TargetDiffers" => Answer::TargetDiffers {
            range: words.number("range")?,
            want: read_digest(words)?,
            got: read_digest(words)?,
        },
        _ => return Ok(None),
    };
    Ok(Some(answer))
}

fn read_name(alloc: Global, words: &mut Arguments) -> Result<Name> {
    let text = words.text("a name")?;
    Ok(Name::of(alloc, &text)?)
}

/// A job by its digest and its five numbers.
fn read_job(words: &mut Arguments) -> Result<JobId> {
    Ok(JobId {
        digest: read_digest(words)?,
        size: words.number("size")?,
        block: words.word("block")?,
        unit: words.word("unit")?,
        units: words.number("units")?,
        ranges: words.number("ranges")?,
    })
}

fn read_digest(words: &mut Arguments) -> Result<[u8; 32]> {
    let text = words.text("a digest")?;
    match <[u8; 32] as FromHex>::from_hex(text.as_str()) {
        Ok(digest) => Ok(digest),
        Err(_) => bail!("no 64 hexadecimal digits"),
    }
}
