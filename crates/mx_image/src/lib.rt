//! Programs and their images: executable files for RISC-V with 32 bits, as the System V gABI's ELF lays them out.
//!
//! `ProgramBuilder` takes a program piece by piece: the entry, the segments with their bytes, the labels in text order.
//! `write` puts its image together, and the laws say that the loader's `read_image` and `symbol` read back from the
//! image
//! what the program says.
#![tactic(auto)]

mod laws;
mod layout;
mod parts;
mod program;
mod put;
mod segment;

pub use laws::{image_is_read, labels_are_found};
pub use parts::write;
pub use program::ProgramBuilder;
pub use segment::Segment;
