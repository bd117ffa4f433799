//! Tests of snapshots that are written of machines which booted and made turns.
#![tactic(auto)]

#[cfg(test)]
mod back;
#[cfg(test)]
mod faults;
#[cfg(test)]
mod plans;
pub mod saved;
#[cfg(test)]
mod written;
