//! Laws on where the partitions of an image stand, in other words than the definitions that they
//! speak of.
#![tactic(auto)]

mod laws;

pub use laws::{
    first_refusals_come_first, no_place_is_earlier, partitions_are_placed, terms_by_number,
};
