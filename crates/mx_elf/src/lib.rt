//! Executable files for RISC-V with 32 bits, as the System V gABI's ELF lays them out: the segments that a file asks to
//! load, and the values of its symbols. Only `Symbols` takes memory, and every list of bytes is accepted as input.
#![tactic(auto)]

mod field;
mod image;
mod layout;
mod reading;
mod segment;
mod symbols;
mod together;

pub use image::{Image, ImageFault, Segs};
pub use reading::read_image;
pub use segment::Seg;
pub use symbols::symbol;
pub use together::Symbols;
