//! From the bytes of a manifest file to the plan of a machine, or to the first fault of the file.
#![tactic(auto)]

mod laws;
mod reading;

pub use laws::judged_plans_are_in_range;
pub use reading::read_plan;
