//! Steps of a scenario on the layouts of images: where their partitions and tables stand, or why they can't be placed, and
//! which bytes are covered.
#![tactic(auto)]

mod composing;
mod layout_steps;
mod planning;
mod shown_layout;
mod shown_refusal;

pub use composing::make_image;
pub use layout_steps::LayoutStep;
pub use planning::{Plan, plan_of};
pub use shown_layout::ShownLayout;
pub use shown_refusal::ShownPlaceFault;
