//! What the texts of a configuration say: laws which show that the walk of a text, token by token, is
//! the reading of the tree that spells it; that a tree without includes says the items which it has,
//! section by section; and that an include stands for the items of its text.
#![tactic(auto)]

mod laws;

pub use laws::{
    includes_stand_for_their_texts, other_texts_are_refused, texts_say_a_tree, texts_walk_as_trees,
    trees_say_their_items,
};
