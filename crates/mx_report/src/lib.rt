//! The lines of a run's report, which leave through a buffer. No call takes memory. A call that puts a text
//! answers `Failed` only where its sink did: then the sink's count of faults rose, and a prefix of the text was put.
#![tactic(auto)]

mod closing;
mod lines;
mod maps;
mod owners;
mod tables;
mod words;

pub use closing::{Options, closing_of_a_flat_state, put_closing};
pub use lines::{EndState, end_line, exit_line, fault_line, hart_lines, put_end, put_note};
pub use maps::domain_lines;
pub use mx_tail::{Tail, put_line, put_pieces};
pub use owners::owner_lines;
pub use tables::{counts_lines, table_lines};
