//! The answers of a command: each with its status and its one line, and the lines of what is done. A line is made
//! in a room of 1,024 bytes with no memory taken.
#![tactic(auto)]

mod answer;
mod lines;

pub use answer::{Answer, Report};
pub use line_parts::LINE_ROOM;
pub use lines::{
    built_line, copied_line, cut_line, demo_line, error_line, expanded_line, forgotten_line,
    gang_line, image_line, mapped_line, nand_line, sparse_line, verified_line,
};
