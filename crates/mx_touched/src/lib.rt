//! What a turn touches of what agreement reads, and how two machines are watched by that: laws of the abstract
//! machine's turns, each the
//! contract of a function that does nothing.
#![tactic(auto)]

mod rest;
mod twins;

pub use rest::{touched_words_decide, turns_leave_the_rest};
pub use twins::{twins_are_found, twins_go_on};
