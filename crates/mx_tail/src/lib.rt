//! A buffer before a sink, through which texts leave in writes of 4096 bytes. No call takes memory. A call that puts a
//! text answers
//! `Failed` only where its sink did: then the sink's count of faults rose, and a prefix of what was to leave was put.
#![tactic(auto)]

mod gathered;
mod tail;

pub use gathered::{put_line, put_pieces};
pub use tail::Tail;
