//! The parts of printed lines, and the row of an answer in the table of answers. A line is made by value in 1,024 bytes,
//! with no memory taken.
#![tactic(auto)]

mod line;
mod row;

pub use line::{LINE_ROOM, Line};
pub use row::{
    Field, Fields, Row, Value, bare, device, digest, flag, job, number, one, text, three, two,
};
