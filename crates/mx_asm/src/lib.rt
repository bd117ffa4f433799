//! The assembler: from the text of a source to the image of the program that it denotes.
//!
//! `assemble` reads the text three times, line by line: for the labels with their addresses, for the first fault, and
//! for the
//! program's bytes. How one line is split and read is mx_source's.
#![tactic(auto)]

mod assembly;
mod emission;
mod faults;
mod hashing;
mod instructions;
mod labels;
mod places;
mod refusal;

pub use assembly::{assemble, program_is_lawful};
pub use refusal::AsmRefused;
