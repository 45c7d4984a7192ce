//! Steps on answers and lines.
use crate::line_steps::LineStep;
use crate::printing::PrintStep;
use crate::reading::read_answer;
use answer_lines::{Answer, LINE_ROOM, error_line};
use anyhow::Result;
use scenario_words::{Arguments, Setting};
use std::alloc::Global;

/// A step on an answer or a line.
#[derive(Debug, Drop)]
pub enum AnswerStep {
    /// The status and the line of an answer.
    Answer(Answer),
    /// A line of a command that is done.
    Line(LineStep),
    /// Lines on a printer.
    Print(PrintStep),
}

impl AnswerStep {
    /// The step of a verb, where it is one of these.
    pub fn read(alloc: Global, verb: &str, words: &mut Arguments) -> Result<Option<AnswerStep>> {
        match verb {
            "answer" => Ok(Some(AnswerStep::Answer(read_answer(alloc, words)?))),
            "print" => Ok(Some(AnswerStep::Print(PrintStep::read(words)?))),
            _ => match LineStep::read(verb, words)? {
                Some(step) => Ok(Some(AnswerStep::Line(step))),
                None => Ok(None),
            },
        }
    }

    /// Does it, and says what came of it.
    pub fn play(self, setting: &mut Setting) -> Result<String> {
        match self {
            AnswerStep::Answer(answer) => show_answer(setting.alloc, &answer),
            AnswerStep::Line(step) => step.play(setting.alloc),
            AnswerStep::Print(step) => step.play(setting),
        }
    }
}

/// The status and the line of an answer.
pub fn show_answer(alloc: Global, answer: &Answer) -> Result<String> {
    let mut room = [0; LINE_ROOM];
    let len = error_line(answer, &mut room);
    let status = answer.status();
    if len == 0 {
        return Ok(format!(in alloc; "{status}")?);
    }
    let line = line_in(alloc, &room, len)?;
    Ok(format!(in alloc; "{status} {line}")?)
}

/// The text of a line that was put at the front of its room.
pub fn line_in(alloc: Global, room: &[u8], len: usize) -> Result<String> {
    let line = room.get(..len).unwrap_or(&[]);
    Ok(String::from_utf8_lossy(alloc, line)?)
}
