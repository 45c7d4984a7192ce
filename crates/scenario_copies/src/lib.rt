//! Steps of a scenario on the copier itself, on a bench in memory.
#![tactic(auto)]

mod acts;
mod copy_steps;
mod jobs;
mod lines;
mod putting;
mod running;

pub use acts::Act;
pub use copy_steps::CopyStep;
