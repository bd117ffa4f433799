//! The manifest of a machine: what it says, or its first fault and the place where that stands. Nothing of images is
//! judged here: faults 2 to 8 are found in the manifest's table alone.
#![tactic(auto)]

mod build;
mod fault;
mod forms;
mod names;
mod parts;
mod plan;
mod reading;
mod row;
mod rows;
mod section;
mod tables;
mod text;

pub use fault::{BootFault, Key, Part, Place};
pub use parts::{Entries, EntryPlan, GatePlan, GatePlans, HartPlan, InputPlan, ModulePlan};
pub use plan::{Plan, plan_is_in_range};
pub use reading::{ManifestFault, read_manifest};
pub use text::{Numbers, Text};
