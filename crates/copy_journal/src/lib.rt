//! The journal of a copy: it is opened, anew or again, units and ranges are recorded on it, and it is forgotten.
#![tactic(auto)]

mod faults;
mod forgetting;
mod looking;
mod marks;
mod new_journal;
mod old_journal;
mod pieces;

pub use faults::JournalFault;
pub use forgetting::forget;
pub use journal_format::JobId;
pub use marks::{Marks, clear_range, record_range, record_units};
pub use new_journal::open_new;
pub use old_journal::open_old;
