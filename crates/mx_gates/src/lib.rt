//! Gates between domains, and the frames of the calls that went through them.
#![tactic(auto)]

mod cross_stack;
mod gates;
mod index;

pub use cross_stack::{CrossStack, Full};
pub use gates::{Gates, GatesFull};
