//! What a trace shows: the text of an instruction, and the line of a turn.
#![tactic(auto)]

mod did;
mod line;
mod lines;
mod text;

pub use did::{Held, Turned, put_did};
pub use lines::{Seen, kind_name, put_turn, turn_line};
pub use text::disassemble;
