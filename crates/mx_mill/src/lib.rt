//! The command `mill`: the manifest that it makes for a number, the run of it that is counted and not told, and the
//! four lines
//! that tell what was counted.
#![tactic(auto)]

mod boots;
mod building;
mod command;
mod draws;
mod laws;
mod lines;
mod plan;
mod table;
mod words;

pub use command::{MillFault, mill};
pub use draws::Draws;
pub use laws::mills_boot;
pub use plan::mill_manifest;
