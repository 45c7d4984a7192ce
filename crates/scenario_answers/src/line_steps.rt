//! Steps on the lines of a command that is done.
ghost use Rattle.std.specs.Prelude.{◌≤◌, length};

use crate::answer_steps::line_in;
use answer_lines::{
    LINE_ROOM, built_line, copied_line, cut_line, demo_line, expanded_line, forgotten_line,
    gang_line, image_line, mapped_line, nand_line, sparse_line, verified_line,
};
use anyhow::Result;
use scenario_words::Arguments;
use sparse_reader::SparseView;
use std::alloc::Global;

/// A line of a command that is done.
#[derive(Debug, Drop)]
pub enum LineStep {
    /// That of an image that was built.
    Image {
        name: String,
        size: u64,
    },
    /// The last one of a build.
    Built {
        images: u64,
    },
    /// That of a map that was written.
    Mapped {
        ranges: u64,
        blocks: u64,
    },
    /// That of a copy.
    Copied {
        units: u64,
        written: u64,
        kept: u64,
    },
    /// That of a journal that was taken back.
    Forgotten {
        held: bool,
    },
    /// That of a target on which the ranges have their digest.
    Verified {
        ranges: u64,
    },
    /// That of a sparse image.
    Sparse {
        view: SparseView,
    },
    /// That of a demonstration.
    Demo {
        seed: u64,
        size: u64,
        parts: u64,
        ranges: u64,
        units: u64,
    },
    /// The last one of a gang.
    Gang {
        targets: u64,
        done: u64,
    },
    /// That of a sparse image that was cut.
    Cut {
        pieces: u64,
    },
    /// That of pieces that were put together.
    Expanded {
        size: u64,
    },
    /// That of an image that was laid into blocks.
    Nand {
        blocks: u64,
        bad: u64,
    },
}

impl LineStep {
    /// The step of a verb, where it is one of these.
    pub fn read(verb: &str, words: &mut Arguments) -> Result<Option<LineStep>> {
        let step = match verb {
            "image-line" => LineStep::Image {
                name: words.text("a name")?,
                size: words.number("a size")?,
            },
            "built-line" => LineStep::Built {
                images: words.number("images")?,
            },
            "mapped-line" => LineStep::Mapped {
                ranges: words.number("ranges")?,
                blocks: words.number("blocks")?,
            },
            "copied-line" => LineStep::Copied {
                units: words.number("units")?,
                written: words.number("units")?,
                kept: words.number("units")?,
            },
            "forgotten-line" => LineStep::Forgotten {
                held: words.truth("held")?,
            },
            "verified-line" => LineStep::Verified {
                ranges: words.number("ranges")?,
            },
            _ => return read_later(verb, words),
        };
        Ok(Some(step))
    }

    /// Shows the line.
    pub fn play(&self, alloc: Global) -> Result<String> {
        let mut room = [0; LINE_ROOM];
        let len = self.put(&mut room);
        line_in(alloc, &room, len)
    }

    /// Puts the line at the front of the room, and gives its length.
    fn put(&self, room: &mut [u8]) -> usize
        requires { 1024 ≤ length room.old }
    {
        match self {
            LineStep::Image { name, size } => image_line(name, *size, room),
            LineStep::Built { images } => built_line(*images, room),
            LineStep::Mapped { ranges, blocks } => mapped_line(*ranges, *blocks, room),
            LineStep::Copied {
                units,
                written,
                kept,
            } => copied_line(*units, *written, *kept, room),
            LineStep::Forgotten { held } => forgotten_line(*held, room),
            LineStep::Verified { ranges } => verified_line(*ranges, room),
            LineStep::Sparse { view } => sparse_line(view, room),
            LineStep::Demo {
                seed,
                size,
                parts,
                ranges,
                units,
            } => demo_line(*seed, *size, *parts, *ranges, *units, room),
            LineStep::Gang { targets, done } => gang_line(*targets, *done, room),
            LineStep::Cut { pieces } => cut_line(*pieces, room),
            LineStep::Expanded { size } => expanded_line(*size, room),
            LineStep::Nand { blocks, bad } => nand_line(*blocks, *bad, room),
        }
    }
}

/// The lines of the other commands.
fn read_later(verb: &str, words: &mut Arguments) -> Result<Option<LineStep>> {
    let step = match verb {
        "sparse-line" => LineStep::Sparse {
            view: read_view(words)?,
        },
        "demo-line" => LineStep::Demo {
            seed: words.number("a seed")?,
            size: words.number("a size")?,
            parts: words.number("parts")?,
            ranges: words.number("ranges")?,
            units: words.number("units")?,
        },
        "gang-line" => LineStep::Gang {
            targets: words.number("targets")?,
            done: words.number("targets")?,
        },
        "cut-line" => LineStep::Cut {
            pieces: words.number("pieces")?,
        },
        "expanded-line" => LineStep::Expanded {
            size: words.number("a size")?,
        },
        "nand-line" => LineStep::Nand {
            blocks: words.number("blocks")?,
            bad: words.number("blocks")?,
        },
        _ => return Ok(None),
    };
    Ok(Some(step))
}

fn read_view(words: &mut Arguments) -> Result<SparseView> {
    Ok(SparseView {
        block: words.word("a block's size")?,
        blocks: words.word("blocks")?,
        chunks: words.word("chunks")?,
        raw: words.word("chunks")?,
        fill: words.word("chunks")?,
        skip: words.word("chunks")?,
        crc: words.word("chunks")?,
    })
}
