//! The turns of a run and their texts: which hart makes each turn, the loop that makes them, and the closing of a run.
//! It knows
//! neither words nor files, and tells which sink failed. No call takes memory.
#![tactic(auto)]

mod counting;
mod each;
mod ending;
mod fault;
mod pace;
mod rows;
mod running;
mod steps;
mod task;
mod tracing;
mod turns;

pub use counting::{Tally, count_turns};
pub use ending::end_of_any;
pub use fault::SinkFault;
pub use pace::{Pace, Schedule, begin, later, next_hart};
pub use running::make_run;
pub use steps::Steps;
pub use task::{Dump, Task};
pub use tracing::{Lines, TraceTask, make_trace};
