//! Tests of what is read and written: stores and sinks, images, sources, the text of instructions and turns, and
//! manifests.
#![tactic(auto)]

#[cfg(test)]
mod checks;
#[cfg(test)]
mod disassembly;
#[cfg(test)]
mod images;
#[cfg(test)]
mod manifests;
#[cfg(test)]
mod programs;
#[cfg(test)]
mod sources;
#[cfg(test)]
mod stores;
#[cfg(test)]
mod turns;
