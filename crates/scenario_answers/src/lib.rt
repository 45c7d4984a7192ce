//! Steps of a scenario on answers, on their lines, and on a printer in memory.
#![tactic(auto)]

mod answer_steps;
mod line_steps;
mod printing;
mod reading;

pub use answer_steps::{AnswerStep, show_answer};
pub use line_steps::LineStep;
pub use printing::{PrintStep, printer_of, put_kept};
pub use reading::read_answer;
