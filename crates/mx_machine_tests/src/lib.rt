//! Tests of machines that are made by hand: worked examples of turns, and what is read of machines.
#![tactic(auto)]

#[cfg(test)]
mod machines;
#[cfg(test)]
mod played;
#[cfg(test)]
mod readings;
#[cfg(test)]
mod resuming;
pub mod small;
