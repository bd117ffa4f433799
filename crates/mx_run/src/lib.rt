//! The top call: the words of a command line, the command that they ask for, and what that promises.
#![tactic(auto)]

mod laws;
mod milling;
mod options;
mod program;
mod top;
mod words;

pub use laws::{
    answers_decide, files_decide, large_schedules_refuse, statuses_have_causes, stores_show_causes,
};
pub use mx_commands::{FileRole, Order, Pair, Status, Way};
pub use program::{read_words, run_program};
pub use top::mondrix;
pub use words::{Asked, Words};
