//! The documents of a debugger's session, told in parts of any place and length: the harts with their paths through
//! gates, the images,
//! the memory, and why a run stops. No call takes memory.
#![tactic(auto)]

mod document;
mod faults;
mod harts;
mod images;
mod named;
mod told;
mod who;
mod window;

pub use document::{Document, put_document};
pub use faults::fault_signal;
pub use named::Named;
pub use told::{note_signal, put_coded, put_pairs, put_part, say_document};
pub use window::{Piece, Window};
