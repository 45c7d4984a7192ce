//! What a copier answered, in words.
use answer_lines::Answer;
use anyhow::Result;
use base_fields::Name;
use copier::{CopyFault, Need, Step};
use scenario_answers::show_answer;
use std::alloc::Global;

/// What a step did, or the line of its refusal.
pub fn show_step(alloc: Global, source: &Name, answer: Result<Step, CopyFault>) -> Result<String> {
    match answer {
        Ok(Step::Unit { k }) => Ok(format!(in alloc; "unit {k}")?),
        Ok(Step::Kept { k }) => Ok(format!(in alloc; "kept {k}")?),
        Ok(Step::Range { r }) => Ok(format!(in alloc; "range {r}")?),
        Ok(Step::Done) => Ok(String::from_str(alloc, "done")?),
        Err(fault) => refusal(alloc, source, fault),
    }
}

/// What is to be done next.
pub fn show_need(alloc: Global, need: Need) -> Result<String> {
    match need {
        Need::Unit { k } => Ok(format!(in alloc; "need unit {k}")?),
        Need::Kept { k } => Ok(format!(in alloc; "need kept {k}")?),
        Need::Range { r } => Ok(format!(in alloc; "need range {r}")?),
        Need::Done => Ok(String::from_str(alloc, "need done")?),
        Need::Failed => Ok(String::from_str(alloc, "need failed")?),
    }
}

/// The status and the line that a command has for a refusal.
pub fn refusal(alloc: Global, source: &Name, fault: CopyFault) -> Result<String> {
    let name = Name::of(alloc, source.text())?;
    show_answer(alloc, &answer_of(name, fault))
}

fn answer_of(name: Name, fault: CopyFault) -> Answer {
    match fault {
        CopyFault::TargetTooSmall { has, needs } => Answer::TargetTooSmall { has, needs },
        CopyFault::JournalHeld { kept, finished } => Answer::JournalHeld { kept, finished },
        CopyFault::NoJournal => Answer::NoJournal,
        CopyFault::JournalForeign {
            kept,
            given,
            length,
        } => Answer::JournalForeign {
            kept,
            given,
            length,
        },
        CopyFault::SourceShort { at } => Answer::SourceShort { name, at },
        CopyFault::Missing => Answer::Missing { name },
        CopyFault::FileFault => Answer::FileFault,
        CopyFault::DeviceFault { dev } => Answer::DeviceFault { dev },
        CopyFault::RangeDiffers { range, want, got } => Answer::RangeDiffers { range, want, got },
        CopyFault::NoMemory => Answer::NoMemory,
    }
}
