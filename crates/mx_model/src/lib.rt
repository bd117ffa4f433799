//! The abstract machine: plain values that its layers share, and in `specs/` the state, the turn, the supervisor's
//! calls and the run.
#![tactic(auto)]

mod events;
mod laws;
mod values;

pub use events::Events;
pub use laws::{flat_of_a_turn, run_after_a_run, turns_keep_flat_validity, turns_keep_validity};
pub use values::{Call, Fault, Frame, Gate, Note, TurnKind};
