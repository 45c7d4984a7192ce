//! The work of copying: the job that the files say is copied to a target beside a journal, and a journal is forgotten.
#![tactic(auto)]

mod copying;
mod faults;
mod forgetting;
mod jobs;
mod requests;
mod running;

pub use copier::{CopyFault, Mode};
pub use copy_run::Tally;
pub use copying::copy_target;
pub use faults::CopyJobFault;
pub use forgetting::forget_journal;
pub use requests::CopyRequest;
