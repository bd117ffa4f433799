//! Tests of the supervisor's calls, over tables of each kind.
#![tactic(auto)]

pub mod calls;
#[cfg(test)]
mod played;
#[cfg(test)]
mod served;
#[cfg(test)]
mod steps;
pub mod worlds;
