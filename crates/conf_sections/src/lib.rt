//! What a configuration says: its main text with all that it includes, as the images and flash
//! devices of its sections, or the first thing that is refused.
#![tactic(auto)]

mod conf;
mod fault;
mod image;
mod reading;

pub use conf_keys::{
    Conf, FlashSection, HdKeys, Hole, ImageSection, Kind, PartitionSection, PlainKeys, SparseKeys,
};
pub use conf_walk::Vars;
pub use fault::ConfFault;
pub use reading::read_conf;
