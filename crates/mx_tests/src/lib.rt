//! Tests that cross crates: the top call over files and sinks in memory.
#![tactic(auto)]

#[cfg(test)]
mod assembling;
#[cfg(test)]
mod calls;
#[cfg(test)]
mod examples;
#[cfg(test)]
mod failing;
#[cfg(test)]
mod hostile;
#[cfg(test)]
mod inputs;
#[cfg(test)]
mod one_module;
#[cfg(test)]
mod options;
#[cfg(test)]
mod outside;
#[cfg(test)]
mod packet_runs;
#[cfg(test)]
mod packets;
#[cfg(test)]
mod traces;
#[cfg(test)]
mod twins;
#[cfg(test)]
mod two_modules;
