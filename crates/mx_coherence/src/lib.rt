//! Coherence of caches, a law of every run of the abstract machine: the contract of a function that does nothing.
#![tactic(auto)]

mod coherence;

pub use coherence::spans_are_coherent;
