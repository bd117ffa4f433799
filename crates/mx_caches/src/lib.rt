//! The caches of a hart: its sidecar, which has for each of its 32 places of access the span that the last check there
//! found, and its lookaside buffer, which has the spans that its newest walks of the permission tables found.
#![tactic(auto)]

mod lookaside;
mod sidecars;

pub use lookaside::Lookaside;
pub use sidecars::Sidecars;
