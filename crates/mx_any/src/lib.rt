//! A machine over any of the three kinds of tables, with any of the three sizes of lookaside buffers.
#![tactic(auto)]

mod any;
mod standing;

pub use any::{AnyMachine, any_harts_are_current, any_machine_is_valid};
