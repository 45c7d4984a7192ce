//! Block maps: the ranges of blocks of an image that hold data, and the units in which these are copied.
#![tactic(auto)]

mod laws;
mod maps;
mod units;

pub use laws::{
    digests_make_the_map, images_have_one_map, maps_grow_by_ranges, ranges_end_below_the_count,
    units_are_the_mapped_bytes, units_by_number, units_have_numbers, units_join_to_ranges,
};
pub use maps::{BlockMap, MAX_RANGES, Range, blocks_in};
pub use units::{UnitFault, Units};
