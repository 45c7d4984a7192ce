//! What the text of a value in a configuration stands for: a number, a size in bytes, a truth value,
//! a kind of partition table, an identifier, a hole or the name of a partition.
#![tactic(auto)]

mod values;

pub use values::{
    Hole, LINUX_DATA, MOST_SIZE, hole_of, identifier, is_partition_name, number_between,
    partition_type, power_between, sector, size_from, table, truth,
};
