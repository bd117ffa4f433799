//! Tests of two machines side by side: turns of one hart in both, and the first turn after which they don't agree for a
//! domain.
#![tactic(auto)]

#[cfg(test)]
mod beside;
#[cfg(test)]
mod examples;
#[cfg(test)]
mod lines;
#[cfg(test)]
mod machines;
#[cfg(test)]
mod pairs;
#[cfg(test)]
mod plain;
#[cfg(test)]
mod turns;
