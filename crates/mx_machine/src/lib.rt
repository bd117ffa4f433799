//! The machine: harts that make turns over a supervisor. One call of `step` is one turn of one hart, and what the
//! machine means is
//! a flat state of the abstract machine.
#![tactic(auto)]

mod bare;
mod bus;
mod hart;
mod harts;
mod inside;
mod machine;
mod readers;
mod starts;
mod stretch;
mod turns;
mod views;
mod window;

pub use machine::Machine;
pub use readers::{machine_is_valid, running_harts_are_current};
pub use starts::{HartStart, HartState, HartStates, StackArea, Stacks, Starts};
pub use views::{HartPlace, HartStatus, HartView, Stretch};
