//! The machine's RAM.
#![tactic(auto)]

mod ram;

pub use ram::{Ram, bytes_of};
