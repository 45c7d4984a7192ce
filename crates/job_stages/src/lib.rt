//! What the stages of a job give: words for contracts, and the law that lines behind lines are the lines joined.
//!
//! - `Gives`: a stage gives what is wanted, or its refusal is the wanted one, or it is a fault that a count shows.
//! - `PrintsFront`, `Prints`: a front of the wanted lines is printed, and all of them where no line failed.
#![tactic(auto)]

mod laws;

pub use laws::lines_are_joined;
