ghost use Rattle.std.specs.Prelude.{◌≡◌, ◌≤◌};

use base_fields::Name;
use bench::Dev;
use journal_format::JobId;
use line_parts::{Row, bare, device, digest, flag, job, number, one, text, three, two};

/// The numbers of the last line of a command that is done.
#[derive(Clone, Copy, Debug, PartialEq, Eq)]
pub enum Report {
    /// So many images were built.
    Built {
        images: u64,
    },
    /// The map that was written has so many ranges and mapped blocks.
    Mapped {
        ranges: u64,
        blocks: u64,
    },
    /// A copy has so many units in all, of which this run wrote some and kept others.
    Copied {
        units: u64,
        written: u64,
        kept: u64,
    },
    /// Whether the journal was held.
    Forgotten {
        held: bool,
    },
    /// So many ranges have their digest on the target.
    Verified {
        ranges: u64,
    },
    /// What stands in an image was listed.
    Listed,
    /// The generated image of `seed`: its bytes, parts, ranges and units.
    Demo {
        seed: u64,
        size: u64,
        parts: u64,
        ranges: u64,
        units: u64,
    },
    /// So many targets were copied to.
    Ganged {
        targets: u64,
    },
    /// A sparse image was cut into so many pieces.
    Cut {
        pieces: u64,
    },
    /// Pieces were put together into so many bytes.
    Expanded {
        size: u64,
    },
    /// An image was laid into so many blocks of a NAND device, past so many bad ones.
    Laid {
        blocks: u64,
        bad: u64,
    },
}

/// What a command answers. A name is shown in a line by its first 200 bytes. Places and offsets are bytes from the
/// start, sizes are in bytes; `want` is what a file, text or map states, and `got` what was computed.
#[derive(Debug, Drop)]
pub enum Answer {
    /// The work was done and its lines were printed.
    Done(Report),
    /// The words are no command.
    Usage,
    /// At `place` of the text of that name stands no token, or one that can't stand there.
    BadText {
        name: Name,
        place: u64,
    },
    /// At `place` of the text of that name stands no key or section that may stand there.
    UnknownKey {
        name: Name,
        place: u64,
    },
    /// At `place` of the text of that name stands no value that the key may have, or a section that lacks something.
    BadValue {
        name: Name,
        place: u64,
    },
    /// A variable of a configuration has no value.
    Unset {
        var: Name,
    },
    /// The text of that name would be included at a nesting above 8.
    DeepInclude {
        name: Name,
    },
    /// The texts have so many bytes in all, more than 1,048,576.
    TooLong {
        total: u64,
    },
    /// There are `count` images, or partitions of an image, above the limit.
    TooMany {
        count: u64,
        limit: u64,
    },
    /// An image has `count` kinds, and not one.
    NoKind {
        image: Name,
        count: u64,
    },
    /// A flash image names no flash section.
    NoFlash {
        image: Name,
    },
    /// A name stands for two things.
    NameClash {
        name: Name,
    },
    /// An image leads back to itself.
    Cycle {
        name: Name,
    },
    /// No image of that name is built.
    NoImage {
        name: Name,
    },
    /// A number of that partition is no multiple of `align`.
    Misaligned {
        part: Name,
        value: u64,
        align: u64,
    },
    /// The hole number `index` of that partition, from 0, isn't in order.
    BadHoles {
        part: Name,
        index: u64,
    },
    /// There is no room for that partition to grow: at least `least` bytes are needed.
    BadAutoresize {
        part: Name,
        room: u64,
        least: u64,
    },
    /// The file of that partition has more bytes than it.
    FileTooLarge {
        part: Name,
        has: u64,
        limit: u64,
    },
    /// That partition has neither a size nor a file.
    NoSize {
        part: Name,
    },
    /// A number of that partition is above the limit that the format has.
    TooFar {
        part: Name,
        number: u64,
        limit: u64,
    },
    /// Two claims on an image overlap.
    Overlap {
        a: Name,
        b: Name,
    },
    /// The image has fewer bytes than its parts need.
    ImageTooSmall {
        has: u64,
        needs: u64,
    },
    /// There are so many entries for a table of at most 128.
    TooManyEntries {
        count: u64,
    },
    /// A number of that partition is no multiple of the erase block.
    NotOnBlock {
        part: Name,
        value: u64,
        pebsize: u64,
    },
    /// That partition ends past the flash.
    PastFlash {
        part: Name,
        end: u64,
        limit: u64,
    },
    /// A piece of at most `limit` bytes can't hold one block.
    PieceTooSmall {
        needs: u64,
        limit: u64,
    },
    /// There would be more pieces than the limit.
    TooManyPieces {
        count: u64,
        limit: u64,
    },
    /// There is no file of that name.
    Missing {
        name: Name,
    },
    /// A map can't be read from `place` on.
    BadMap {
        place: u64,
    },
    /// A map is of another version.
    OtherVersion {
        place: u64,
    },
    /// A map has digests of another kind.
    OtherDigest {
        place: u64,
    },
    /// A map's count of mapped blocks isn't that of its ranges.
    BadCounts {
        want: u64,
        got: u64,
    },
    /// A map's own digest differs.
    SumDiffers {
        want: [u8; 32],
        got: [u8; 32],
    },
    /// An image has no partition table.
    NoTable,
    /// The GUID partition table has a wrong field at `at`.
    BadGpt {
        at: u64,
    },
    /// The checksum at `at` differs.
    BadSum {
        at: u64,
        want: u32,
        got: u32,
    },
    /// The chain of boot records has a wrong one at `at`.
    BadChain {
        at: u64,
    },
    /// The chunk number `k` of a sparse file is none.
    BadChunk {
        k: u32,
    },
    /// The blocks of a sparse file's chunks aren't those that its header says.
    Counts {
        want: u64,
        got: u64,
    },
    /// The file that is read ends at or before the byte at `at`, which is needed.
    Short {
        at: u64,
    },
    /// The header of a sparse file has a wrong field at `at`.
    BadMagic {
        at: u64,
    },
    /// A source's name says that it is compressed.
    Compressed {
        name: Name,
    },
    /// The target has fewer bytes than the image.
    TargetTooSmall {
        has: u64,
        needs: u64,
    },
    /// The journal is held for a job, which `finished` tells to be this one with all its units and ranges recorded.
    JournalHeld {
        kept: JobId,
        finished: bool,
    },
    /// The journal isn't held, so there is nothing to go on with.
    NoJournal,
    /// The journal, of so many bytes, is held for another job than the given one, or is too short for its marks.
    JournalForeign {
        kept: JobId,
        given: JobId,
        length: u64,
    },
    /// A copy would have more units than the limit.
    TooManyUnits {
        count: u64,
        limit: u64,
    },
    /// The image has another length than its layout.
    ImageStale {
        has: u64,
        needs: u64,
    },
    /// The file of that name has another length than the pieces need.
    SizeDiffers {
        name: Name,
        has: u64,
        needs: u64,
    },
    /// A NAND device has fewer good blocks than the image needs.
    NoRoom {
        good: u64,
        needs: u64,
    },
    /// A copied range has another digest on the target than in the map.
    RangeDiffers {
        range: u64,
        want: [u8; 32],
        got: [u8; 32],
    },
    /// A range has another digest on the target than in the map.
    TargetDiffers {
        range: u64,
        want: [u8; 32],
        got: [u8; 32],
    },
    /// That file ends at or before the byte at `at`, which is needed.
    SourceShort {
        name: Name,
        at: u64,
    },
    /// A call on the files failed.
    FileFault,
    /// A call on that device failed.
    DeviceFault {
        dev: Dev,
    },
    /// A call on a NAND device failed.
    NandFault,
    /// Memory was refused.
    NoMemory,
    /// The work was done, and a line of it was not printed.
    PrintFault,
}

impl Answer {
    ghost use Rattle.answer_lines.specs.Answer.{row_of, status_of};
    ghost use Rattle.line_parts.specs.Row.{row_room, shown_row};

    /// The status with which the program ends.
    pub fn status(&self) -> u8
        ensures { result ≡ status_of self.now }
    {
        self.row().status
    }

    /// The answer's row: its status, its label and its fields. What has no error line has no label.
    pub(crate) fn row(&self) -> Row<'_>
        ensures row { shown_row result ≡ row_of self.now }
        ensures fits { row_room result ≤ 1000 }
    {
        match self {
            Answer::Done(_) => bare(0, ""),
            Answer::Usage => bare(1, "Usage"),
            Answer::BadText { name, place } => two(
                2,
                "BadText",
                text("name", name),
                number("place", *place),
            ),
            Answer::UnknownKey { name, place } => two(
                2,
                "UnknownKey",
                text("name", name),
                number("place", *place),
            ),
            Answer::BadValue { name, place } => two(
                2,
                "BadValue",
                text("name", name),
                number("place", *place),
            ),
            Answer::Unset { var } => one(2, "Unset", text("var", var)),
            Answer::DeepInclude { name } => one(2, "DeepInclude", text("name", name)),
            Answer::TooLong { total } => one(2, "TooLong", number("total", *total)),
            Answer::TooMany { count, limit } => two(
                2,
                "TooMany",
                number("count", *count),
                number("limit", *limit),
            ),
            Answer::NoKind { image, count } => two(
                2,
                "NoKind",
                text("image", image),
                number("count", *count),
            ),
            Answer::NoFlash { image } => one(2, "NoFlash", text("image", image)),
            Answer::NameClash { name } => one(2, "NameClash", text("name", name)),
            Answer::Cycle { name } => one(2, "Cycle", text("name", name)),
            Answer::NoImage { name } => one(2, "NoImage", text("name", name)),
            Answer::Misaligned { part, value, align } => three(
                3,
                "Misaligned",
                text("part", part),
                number("value", *value),
                number("align", *align),
            ),
            Answer::BadHoles { part, index } => two(
                3,
                "BadHoles",
                text("part", part),
                number("index", *index),
            ),
            Answer::BadAutoresize { part, room, least } => three(
                3,
                "BadAutoresize",
                text("part", part),
                number("room", *room),
                number("least", *least),
            ),
            Answer::FileTooLarge { part, has, limit } => three(
                3,
                "FileTooLarge",
                text("part", part),
                number("has", *has),
                number("limit", *limit),
            ),
            Answer::NoSize { part } => one(3, "NoSize", text("part", part)),
            Answer::TooFar {
                part,
                number: n,
                limit,
            } => three(
                3,
                "TooFar",
                text("part", part),
                number("number", *n),
                number("limit", *limit),
            ),
            Answer::Overlap { a, b } => two(3, "Overlap", text("a", a), text("b", b)),
            Answer::ImageTooSmall { has, needs } => two(
                3,
                "ImageTooSmall",
                number("has", *has),
                number("needs", *needs),
            ),
            Answer::TooManyEntries { count } => one(3, "TooManyEntries", number("count", *count)),
            Answer::NotOnBlock {
                part,
                value,
                pebsize,
            } => three(
                3,
                "NotOnBlock",
                text("part", part),
                number("value", *value),
                number("pebsize", *pebsize),
            ),
            Answer::PastFlash { part, end, limit } => three(
                3,
                "PastFlash",
                text("part", part),
                number("end", *end),
                number("limit", *limit),
            ),
            Answer::PieceTooSmall { needs, limit } => two(
                3,
                "PieceTooSmall",
                number("needs", *needs),
                number("limit", *limit),
            ),
            Answer::TooManyPieces { count, limit } => two(
                3,
                "TooManyPieces",
                number("count", *count),
                number("limit", *limit),
            ),
            Answer::Missing { name } => one(4, "Missing", text("name", name)),
            Answer::BadMap { place } => one(5, "BadMap", number("place", *place)),
            Answer::OtherVersion { place } => one(5, "OtherVersion", number("place", *place)),
            Answer::OtherDigest { place } => one(5, "OtherDigest", number("place", *place)),
            Answer::BadCounts { want, got } => two(
                5,
                "BadCounts",
                number("want", *want),
                number("got", *got),
            ),
            Answer::SumDiffers { want, got } => two(
                5,
                "SumDiffers",
                digest("want", want),
                digest("got", got),
            ),
            Answer::NoTable => bare(5, "NoTable"),
            Answer::BadGpt { at } => one(5, "BadGpt", number("at", *at)),
            Answer::BadSum { at, want, got } => three(
                5,
                "BadSum",
                number("at", *at),
                number("want", u64::from(*want)),
                number("got", u64::from(*got)),
            ),
            Answer::BadChain { at } => one(5, "BadChain", number("at", *at)),
            Answer::BadChunk { k } => one(5, "BadChunk", number("k", u64::from(*k))),
            Answer::Counts { want, got } => two(
                5,
                "Counts",
                number("want", *want),
                number("got", *got),
            ),
            Answer::Short { at } => one(5, "Short", number("at", *at)),
            Answer::BadMagic { at } => one(5, "BadMagic", number("at", *at)),
            Answer::Compressed { name } => one(6, "Compressed", text("name", name)),
            Answer::TargetTooSmall { has, needs } => two(
                6,
                "TargetTooSmall",
                number("has", *has),
                number("needs", *needs),
            ),
            Answer::JournalHeld { kept, finished } => two(
                6,
                "JournalHeld",
                job("kept", kept),
                flag("finished", *finished),
            ),
            Answer::NoJournal => bare(6, "NoJournal"),
            Answer::JournalForeign {
                kept,
                given,
                length,
            } => three(
                6,
                "JournalForeign",
                job("kept", kept),
                job("given", given),
                number("length", *length),
            ),
            Answer::TooManyUnits { count, limit } => two(
                6,
                "TooManyUnits",
                number("count", *count),
                number("limit", *limit),
            ),
            Answer::ImageStale { has, needs } => two(
                6,
                "ImageStale",
                number("has", *has),
                number("needs", *needs),
            ),
            Answer::SizeDiffers { name, has, needs } => three(
                6,
                "SizeDiffers",
                text("name", name),
                number("has", *has),
                number("needs", *needs),
            ),
            Answer::NoRoom { good, needs } => two(
                6,
                "NoRoom",
                number("good", *good),
                number("needs", *needs),
            ),
            Answer::RangeDiffers { range, want, got } => three(
                7,
                "RangeDiffers",
                number("range", *range),
                digest("want", want),
                digest("got", got),
            ),
            Answer::TargetDiffers { range, want, got } => three(
                7,
                "TargetDiffers",
                number("range", *range),
                digest("want", want),
                digest("got", got),
            ),
            Answer::SourceShort { name, at } => two(
                8,
                "SourceShort",
                text("name", name),
                number("at", *at),
            ),
            Answer::FileFault => bare(9, "FileFault"),
            Answer::DeviceFault { dev } => one(10, "DeviceFault", device("dev", *dev)),
            Answer::NandFault => bare(10, "NandFault"),
            Answer::NoMemory => bare(11, "NoMemory"),
            Answer::PrintFault => bare(12, ""),
        }
    }
}
