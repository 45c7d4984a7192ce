//! Steps of a scenario on the texts of a configuration: their tokens, values, what they say and the images that are
//! built.
#![tactic(auto)]

mod shown_conf;
mod shown_graph;
mod shown_items;
mod text_steps;

pub use shown_conf::{ShownConf, ShownFault};
pub use shown_graph::{ShownGraph, ShownRefusal};
pub use shown_items::{ShownItems, ShownStop};
pub use text_steps::TextStep;
