//! The 48 instructions of RV32IM: their words, and one value for each.
#![tactic(auto)]

mod decoder;
mod encoder;
mod inst;
mod ranges;

pub use decoder::decode;
pub use encoder::encode;
pub use inst::{Cond, ImmOp, Inst, LoadWidth, RegOp, StoreWidth};
pub use ranges::is_valid;
