//! The commands: from their words to their answer, over any files, devices and printer.
#![tactic(auto)]

mod answering;
mod build_arm;
mod list_arm;
mod map_arm;
mod printing;
mod reading;
mod request;
mod running;

pub use chain_laws::{chains_keep_since, done_chains_are_copied, first_starts_have_since};
pub use conf_sections::Vars;
pub use device_commands::DeviceNames;
pub use image_laws::{images_are_on_the_target, mapped_texts_are_the_map};
pub use request::device_names;
pub use running::run;
