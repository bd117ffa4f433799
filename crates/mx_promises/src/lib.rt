//! What holds of every run that the program makes, for whoever has only its words and its files.
#![tactic(auto)]

mod in_memory;
mod laws;

pub use in_memory::run_in_memory;
pub use laws::booted_runs_keep_the_promises;
