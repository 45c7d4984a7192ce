//! What the sections of a configuration say: the values of their keys, or the first place that has
//! another key or value.
#![tactic(auto)]

mod checking;
mod conf;
mod items;
mod partitions;
mod sections;
mod settings;

pub use checking::SectionFault;
pub use conf::{
    Conf, ConfigKeys, FlashSection, HdKeys, ImageKeys, ImageSection, Kind, PartitionSection,
    PlainKeys, SparseKeys, Vars,
};
pub use conf_values::Hole;
pub use partitions::read_partition;
pub use sections::{
    check_device, image_head_fault, image_keys, key_fault, name_text, read_config, read_flash,
    read_hd, read_plain, read_sparse,
};
pub use settings::Section;
