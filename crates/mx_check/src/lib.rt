//! The checker of all accesses: permission tables with a sidecar and a lookaside buffer for each hart before them, kept
//! coherent while
//! announced calls change rights. A hart that has heard of a call keeps no span of its range, and a call takes effect
//! only where
//! every other running hart has heard it.
#![tactic(auto)]

mod checker;
mod flight;
mod harts;
mod part;

pub use checker::{Checker, flights_of};
pub use flight::{Flight, Flights};
pub use part::Counts;

/// A change needs more than the limit of the tables.
#[derive(Clone, Copy, PartialEq, Eq)]
pub struct TablesFull;
