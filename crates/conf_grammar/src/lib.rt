//! The grammar of a configuration's text: laws which show that the moves of `conf_items` take exactly
//! the texts that it spells, and make whole what their trees say.
//!
//! ```text
//! text    = { item }
//! item    = include | option | section
//! include = "include" "(" value ")"
//! option  = word ( "=" | "+=" ) ( value | list )
//! section = word [ value ] "{" { item } "}"
//! list    = "{" [ value { "," value } [ "," ] ] "}"
//! value   = word | double | single
//! ```
#![tactic(auto)]

mod laws;

pub use laws::{
    first_that_cannot_stand, kinds_that_stand, taken_texts_are_trees, texts_can_go_on,
    texts_have_one_tree, trees_are_taken,
};
