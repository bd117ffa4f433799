//! Tests of the commands over stores and sinks in memory: calls that fail, calls that move one byte alone, runs that
//! are stopped and
//! resumed, and the command `mill`.
#![tactic(auto)]

pub mod crumbs;
#[cfg(test)]
mod failing;
#[cfg(test)]
mod mills;
#[cfg(test)]
mod outside;
#[cfg(test)]
mod resumes;
#[cfg(test)]
mod resuming;
#[cfg(test)]
mod rows;
#[cfg(test)]
mod snapshots;
#[cfg(test)]
mod stops;
