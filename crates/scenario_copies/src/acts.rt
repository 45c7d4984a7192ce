//! What a scenario has a copier do.
use anyhow::{Result, bail};
use scenario_words::Arguments;
use std::alloc::Global;

/// One call on a copier, or several.
#[derive(Clone, Copy, Debug, PartialEq, Eq)]
pub enum Act {
    /// A step.
    Step,
    /// Steps up to the last one or to the first refusal.
    Run,
    /// What is to be done next.
    Need,
    /// Puts the unit that is next, with the source's bytes.
    Put,
    /// Puts it with equal bytes.
    Fill { byte: u8 },
    /// Does what is next where that is no unit to be written.
    Keep,
}

impl Act {
    /// The acts of the words that are left.
    pub fn read_all(alloc: Global, words: &mut Arguments) -> Result<Vec<Act>> {
        let mut acts = Vec::new(alloc);
        for _ in 0..words.left() {
            if words.is_empty() {
                break;
            }
            acts.push(Act::read(words)?)?;
        }
        Ok(acts)
    }

    fn read(words: &mut Arguments) -> Result<Act> {
        let word = words.text("an act")?;
        match word.as_str() {
            "step" => Ok(Act::Step),
            "run" => Ok(Act::Run),
            "need" => Ok(Act::Need),
            "put" => Ok(Act::Put),
            "put-fill" => Ok(Act::Fill {
                byte: words.byte("a byte")?,
            }),
            "keep" => Ok(Act::Keep),
            _ => bail!("no act of a copier: {word}"),
        }
    }
}
