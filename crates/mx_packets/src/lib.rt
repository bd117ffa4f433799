//! Packets of gdb's remote serial protocol in the bytes of a line, and answers as packets. No call takes memory.
#![tactic(auto)]

mod answer;
mod digit;
mod laws;
mod line;
mod receiver;
mod request;

pub use answer::{Answer, Packet, framed};
pub use digit::hex_value;
pub use laws::{cuts_dont_matter, texts_are_heard};
pub use line::{Line, StdLine};
pub use receiver::{Heard, Place, Receiver};
pub use request::{Object, Request, Thread, request_of};
