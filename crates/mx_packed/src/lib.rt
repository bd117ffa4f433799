//! Packed leaf entries of tries: up to four runs of a line in one word, which reach over the line's edges.
#![tactic(auto)]

mod form;
mod mini;

pub use form::Packed;
pub use mini::{Unpacked, pack, unpack};
