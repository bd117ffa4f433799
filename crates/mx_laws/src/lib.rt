//! Laws of the abstract machine's turns, each the contract of a function that does nothing: what a module can see and
//! change.
#![tactic(auto)]

mod comparison;
mod isolation;
mod quiet;

pub use comparison::agreement_is_a_test;
pub use isolation::{turns_keep_foreign_words, turns_keep_frames, turns_of_twins};
pub use quiet::quiet_turns;
