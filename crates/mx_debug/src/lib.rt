//! A debugger's session: where a run stops, what packets are answered, and the talk on a line. Only what boots again
//! takes memory.
#![tactic(auto)]

mod again;
mod back;
mod console;
mod course;
mod laws;
mod reply;
mod rows;
mod search;
mod session;
mod still;
mod stop;
mod talking;
mod target;
mod texts;

pub use again::{Origin, machine_at, run_on_by};
pub use back::{Back, Seeking, backward};
pub use course::Course;
pub use laws::{console_is_told, no_packet_changes_the_run, want_changes_no_other};
pub use reply::Next;
pub use search::{Asking, Known, forward};
pub use session::Session;
pub use stop::{Found, Step, Stop};
pub use talking::talk;
