//! Laws of tables that are read: the reader answers tables exactly where an image reads as these, and
//! an image of a layout is read as that layout's tables.
#![tactic(auto)]

mod laws;

pub use laws::{
    built_images_are_read, layouts_are_read, layouts_are_recognised, layouts_read_as,
    tables_are_read_as, tables_or_refusal,
};
