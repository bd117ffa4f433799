//! What a hart sees of inputs at boot: those of its module alone.
#![tactic(auto)]

mod laws;

pub use laws::inputs_are_unseen;
