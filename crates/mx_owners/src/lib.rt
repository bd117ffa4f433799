//! The owner of each word of RAM.
#![tactic(auto)]

mod owners;
mod runs;

pub use owners::{Owners, OwnersFull};
