//! Permission tables as sorted runs: one list of entries per domain, in frames of 64 words.
#![tactic(auto)]

mod build;
mod chains;
mod change;
mod entries;
mod frames;
mod moves;
mod plan;
mod rows;
mod segments;
mod store;
mod tally;

pub use chains::Chains;
pub use frames::frames_are_needed;
pub use segments::Segments;
