//! Laws of a copy's events: what each write to the target or the journal keeps, however it is torn.
#![tactic(auto)]

mod laws;

pub use laws::{
    checked_ranges_are_copied, gates_keep_standing, marks_keep_standing, openings_are_along,
    ranges_end_along, runs_end_one_way, small_copies, steps_are_narrow, steps_go_along,
    unheld_journals_stand, writes_keep_since,
};
