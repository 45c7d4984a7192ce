//! What is built of an image, and where: the lengths of its sources' files as the files say, and its layout by these, or
//! why it has none.
#![tactic(auto)]

mod faults;
mod measuring;
mod placing;
mod planning;

pub use faults::PlanFault;
pub use placement_rules::PlaceFault;
pub use planning::plan_image;
