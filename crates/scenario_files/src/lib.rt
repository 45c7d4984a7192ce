//! Steps of a scenario on its files and variables, on what is to fail, and single calls of the files.
#![tactic(auto)]

mod call_steps;
mod file_steps;

pub use call_steps::CallStep;
pub use file_steps::FileStep;
