//! Laws of a copier's stages: how near to the start of its run each pair of images stays that a stop may leave.
#![tactic(auto)]

mod laws;

pub use laws::{
    ends_give_mixed, journal_stages_are_near, pairs_since_are_near, windows_are_near,
    windows_are_open, windows_go_on, writes_are_near,
};
