//! The debugger's top call: the words of its command line, the boot and the schedule that they ask for, the talk about
//! the run of the two, and what that promises.
#![tactic(auto)]

mod debugger;
mod program;
mod top;

pub use program::run_debugger;
pub use top::debug;
