//! Tests of the parts of the machine below its tables: lists, instructions, memory, heaps, owners, gates, frames and
//! caches.
#![tactic(auto)]

#[cfg(test)]
mod areas;
#[cfg(test)]
mod caches;
#[cfg(test)]
mod checks;
#[cfg(test)]
mod crossings;
#[cfg(test)]
mod encodings;
#[cfg(test)]
mod lists;
#[cfg(test)]
mod memory;
#[cfg(test)]
mod programs;
#[cfg(test)]
mod results;
