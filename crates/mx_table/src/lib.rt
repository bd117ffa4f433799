//! Tables of permissions, one map per protection domain, as a trait that the kinds of tables meet.
#![tactic(auto)]

mod change;
mod refused;
mod tables;

pub use change::Change;
pub use refused::BuildRefused;
pub use tables::{PermTables, shape_of};

/// The greatest number of modules, and so of domains but the supervisor.
pub const MODULES: u32 = mx_words::MOST_MODULES as u32;
