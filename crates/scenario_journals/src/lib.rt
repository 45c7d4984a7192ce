//! Steps of a scenario on the journal of a copy, on a bench in memory.
#![tactic(auto)]

mod calls;
mod job_steps;
mod jobs;
mod journal_steps;
mod outcomes;

pub use job_steps::JobStep;
pub use jobs::Job;
pub use journal_steps::JournalStep;
