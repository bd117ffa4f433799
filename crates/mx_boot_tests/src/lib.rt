//! Tests of the loader: layouts of plans with their images, machines at boot, and the first fault of each.
#![tactic(auto)]

#[cfg(test)]
mod boots;
#[cfg(test)]
mod layouts;
pub mod manifests;
