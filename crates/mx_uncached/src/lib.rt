//! The plain machine, which has no caches, and the law that they decide nothing: a newcomer reads `specs/Plain.antt`
//! first.
#![tactic(auto)]

mod laws;

pub use laws::caches_decide_nothing;
