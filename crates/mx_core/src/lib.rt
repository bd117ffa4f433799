//! One instruction over any bus.
#![tactic(auto)]

mod bus;
mod laws;
mod memo;
mod outcome;
mod regs;
mod results;
mod step;

pub use bus::{Bus, Denied};
pub use laws::instructions_are_turns;
pub use memo::Memo;
pub use outcome::Outcome;
pub use regs::Regs;
pub use step::{act_on, exec};
