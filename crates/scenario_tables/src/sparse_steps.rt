//! Steps on sparse files.
use anyhow::{Result, bail};
use outside::Files;
use scenario_words::{Arguments, Setting};
use sparse_reader::{Chunk, Cursor, SparseFault, SparseView, next_chunk, read_sparse};

/// The most chunks that are shown.
const SHOWN: u32 = 1_000;

/// A step on a sparse file.
#[derive(Debug, Drop)]
pub enum SparseStep {
    /// What a sparse file has.
    View { name: String },
    /// Its chunks.
    Chunks { name: String },
    /// The chunk at a cursor.
    Chunk { name: String, cursor: Cursor },
}

impl SparseStep {
    /// The step of a verb, where it is one of these.
    pub fn read(verb: &str, words: &mut Arguments) -> Result<Option<SparseStep>> {
        let step = match verb {
            "sparse" => SparseStep::View {
                name: words.text("a file")?,
            },
            "chunks" => SparseStep::Chunks {
                name: words.text("a file")?,
            },
            "chunk" => SparseStep::Chunk {
                name: words.text("a file")?,
                cursor: read_cursor(words)?,
            },
            _ => return Ok(None),
        };
        Ok(Some(step))
    }

    /// Does it, and says what came of it.
    pub fn play(self, setting: &mut Setting) -> Result<String> {
        match self {
            SparseStep::View { name } => view(setting, &name),
            SparseStep::Chunks { name } => chunks(setting, &name),
            SparseStep::Chunk { name, cursor } => chunk(setting, &name, cursor),
        }
    }
}

fn read_cursor(words: &mut Arguments) -> Result<Cursor> {
    Ok(Cursor {
        chunk: words.word("a chunk")?,
        at: words.number("a place")?,
        block: words.number("a block")?,
    })
}

fn view(setting: &mut Setting, name: &str) -> Result<String> {
    let view = if setting.trickles {
        let mut files = setting.take_trickled();
        let view = read_sparse(&mut files, name);
        setting.put_back(files);
        view
    } else {
        read_sparse(&mut setting.files, name)
    };
    show_view(setting, view)
}

fn show_view(setting: &Setting, view: Result<SparseView, SparseFault>) -> Result<String> {
    match view {
        Ok(view) => Ok(format!(in setting.alloc; "{view:?}")?),
        Err(fault) => Ok(format!(in setting.alloc; "no view: {fault:?}")?),
    }
}

/// What a call with a cursor answers, and the cursor behind it.
fn next<F: Files>(
    files: &mut F,
    name: &str,
    cursor: Cursor,
) -> Result<(Result<Option<Chunk>, SparseFault>, Cursor)> {
    let number = u64::from(cursor.chunk);
    let most = u64::from(u32::MAX);
    if cursor.at > 28 + number * most || cursor.block > number * most {
        bail!("no such cursor");
    }
    let mut moved = cursor;
    let answer = next_chunk(files, name, &mut moved);
    Ok((answer, moved))
}

fn chunks(setting: &mut Setting, name: &str) -> Result<String> {
    let mut cursor = Cursor::new();
    let mut shown = String::from_str(setting.alloc, "chunks")?;
    for _ in 0..SHOWN {
        let (answer, moved) = next(&mut setting.files, name, cursor)?;
        match answer {
            Ok(Some(chunk)) => write!(shown, "\n  {chunk:?}")?,
            Ok(None) => break,
            Err(fault) => {
                write!(shown, "\n  {fault:?}")?;
                break;
            }
        }
        cursor = moved;
    }
    Ok(shown)
}

fn chunk(setting: &mut Setting, name: &str, cursor: Cursor) -> Result<String> {
    let (answer, moved) = next(&mut setting.files, name, cursor)?;
    let chunk = moved.chunk;
    let at = moved.at;
    let block = moved.block;
    Ok(format!(in setting.alloc; "{answer:?} and {chunk} {at} {block}")?)
}
