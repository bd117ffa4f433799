//! Snapshots read: the machine of a snapshot's bytes and what is kept of its plan, or the place and number of the first
//! fault.
#![tactic(auto)]

mod areas;
mod building;
mod fields;
mod frames;
mod gates;
mod harts;
mod head;
mod maps;
mod modules;
mod names;
mod owners;
mod reading;
mod refused;
mod registers;
mod resumed;

pub use fields::read_snapshot;
pub use refused::SnapshotRefused;
pub use resumed::Resumed;
