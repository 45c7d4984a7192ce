ghost use Rattle.std.specs.Prelude.{◌≤◌, length};
ghost use Rattle.line_parts.specs.Line.{PutsLine};
ghost use Rattle.answer_lines.specs.Answer.{error_text};
ghost use Rattle.answer_lines.specs.Lines.{built_text, copied_text, cut_text, demo_text};
ghost use Rattle.answer_lines.specs.Lines.{expanded_text};
ghost use Rattle.answer_lines.specs.Lines.{forgotten_text, gang_text, image_text, mapped_text};
ghost use Rattle.answer_lines.specs.Lines.{nand_text};
ghost use Rattle.answer_lines.specs.Lines.{sparse_text, verified_text};

use crate::Answer;
use line_parts::Line;
use sparse_reader::SparseView;

/// Puts the line of an answer at the front of the room, and gives its length: 0 for an answer whose work was done,
/// which has no such line. The room has at least [`LINE_ROOM`](crate::LINE_ROOM) bytes, as in each call here.
pub fn error_line(answer: &Answer, room: &mut [u8]) -> usize
    requires { 1024 ≤ length room.old }
    ensures { PutsLine (error_text answer.now) room.new result }
{
    answer.row().line().put(room)
}

/// The line of an image that was built, with its full name and its size in bytes.
pub fn image_line(name: &str, size: u64, room: &mut [u8]) -> usize
    requires { 1024 ≤ length room.old }
    ensures { PutsLine (image_text name.now size) room.new result }
{
    Line::headed("image ")
        .name(name)
        .number("size", size)
        .put(room)
}

/// The last line of a build that is done.
pub fn built_line(images: u64, room: &mut [u8]) -> usize
    requires { 1024 ≤ length room.old }
    ensures { PutsLine (built_text images) room.new result }
{
    Line::headed("built").number("images", images).put(room)
}

/// The line of a map that was written, with its ranges and its mapped blocks.
pub fn mapped_line(ranges: u64, blocks: u64, room: &mut [u8]) -> usize
    requires { 1024 ≤ length room.old }
    ensures { PutsLine (mapped_text ranges blocks) room.new result }
{
    Line::headed("mapped")
        .number("ranges", ranges)
        .number("blocks", blocks)
        .put(room)
}

/// The line of a copy that is done: all its units, those that this run wrote, and those that it kept.
pub fn copied_line(units: u64, written: u64, kept: u64, room: &mut [u8]) -> usize
    requires { 1024 ≤ length room.old }
    ensures { PutsLine (copied_text units written kept) room.new result }
{
    Line::headed("copied")
        .number("units", units)
        .number("written", written)
        .number("kept", kept)
        .put(room)
}

/// The line of a journal that was taken back, and whether it was held.
pub fn forgotten_line(held: bool, room: &mut [u8]) -> usize
    requires { 1024 ≤ length room.old }
    ensures { PutsLine (forgotten_text held) room.new result }
{
    Line::headed("forgotten").flag("held", held).put(room)
}

/// The line of a target on which so many ranges have their digest.
pub fn verified_line(ranges: u64, room: &mut [u8]) -> usize
    requires { 1024 ≤ length room.old }
    ensures { PutsLine (verified_text ranges) room.new result }
{
    Line::headed("verified").number("ranges", ranges).put(room)
}

/// The line of a sparse image: its block in bytes, its blocks, and its chunks by their kinds.
pub fn sparse_line(view: &SparseView, room: &mut [u8]) -> usize
    requires { 1024 ≤ length room.old }
    ensures { PutsLine (sparse_text view.now) room.new result }
{
    Line::headed("sparse")
        .numbers(&[
            ("block", u64::from(view.block)),
            ("blocks", u64::from(view.blocks)),
            ("chunks", u64::from(view.chunks)),
            ("raw", u64::from(view.raw)),
            ("fill", u64::from(view.fill)),
            ("skip", u64::from(view.skip)),
            ("crc", u64::from(view.crc)),
        ])
        .put(room)
}

/// The line of a demonstration: its seed, and the size, parts, ranges and units of its image.
pub fn demo_line(
    seed: u64,
    size: u64,
    parts: u64,
    ranges: u64,
    units: u64,
    room: &mut [u8],
) -> usize
    requires { 1024 ≤ length room.old }
    ensures { PutsLine (demo_text seed size parts ranges units) room.new result }
{
    Line::headed("demo")
        .numbers(&[
            ("seed", seed),
            ("size", size),
            ("parts", parts),
            ("ranges", ranges),
            ("units", units),
        ])
        .put(room)
}

/// The last line of a gang: its targets, and how many of them are done.
pub fn gang_line(targets: u64, done: u64, room: &mut [u8]) -> usize
    requires { 1024 ≤ length room.old }
    ensures { PutsLine (gang_text targets done) room.new result }
{
    Line::headed("gang")
        .number("targets", targets)
        .number("done", done)
        .put(room)
}

/// The line of a sparse image that was cut.
pub fn cut_line(pieces: u64, room: &mut [u8]) -> usize
    requires { 1024 ≤ length room.old }
    ensures { PutsLine (cut_text pieces) room.new result }
{
    Line::headed("cut").number("pieces", pieces).put(room)
}

/// The line of pieces that were put together into so many bytes.
pub fn expanded_line(size: u64, room: &mut [u8]) -> usize
    requires { 1024 ≤ length room.old }
    ensures { PutsLine (expanded_text size) room.new result }
{
    Line::headed("expanded").number("size", size).put(room)
}

/// The line of an image that was laid into blocks, past so many bad ones.
pub fn nand_line(blocks: u64, bad: u64, room: &mut [u8]) -> usize
    requires { 1024 ≤ length room.old }
    ensures { PutsLine (nand_text blocks bad) room.new result }
{
    Line::headed("nand")
        .number("blocks", blocks)
        .number("bad", bad)
        .put(room)
}
