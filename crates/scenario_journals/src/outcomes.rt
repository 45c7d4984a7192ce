//! What came of a call on a journal.
use answer_lines::Answer;
use anyhow::Result;
use copy_journal::JournalFault;
use scenario_answers::show_answer;
use scenario_words::done;
use std::alloc::Global;

/// What a call that has nothing to show answered.
pub fn outcome(alloc: Global, answer: Result<(), JournalFault>) -> Result<String> {
    match answer {
        Ok(()) => done(alloc),
        Err(fault) => refusal(alloc, fault),
    }
}

/// The status and the line that a command has for a fault.
pub fn refusal(alloc: Global, fault: JournalFault) -> Result<String> {
    show_answer(alloc, &answer_of(fault))
}

fn answer_of(fault: JournalFault) -> Answer {
    match fault {
        JournalFault::JournalHeld { kept, finished } => Answer::JournalHeld { kept, finished },
        JournalFault::NoJournal => Answer::NoJournal,
        JournalFault::JournalForeign {
            kept,
            given,
            length,
        } => Answer::JournalForeign {
            kept,
            given,
            length,
        },
        JournalFault::DeviceFault { dev } => Answer::DeviceFault { dev },
        JournalFault::NoMemory => Answer::NoMemory,
    }
}
