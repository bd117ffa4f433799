//! Two machines side by side: a turn of the same hart in both, and the first turn after which they don't agree for a
//! domain.
#![tactic(auto)]

mod before;
mod compare;
mod found;
mod gates;
mod harts;
mod lines;
mod pair;
mod reach;
mod run;
mod same;
mod twin;
mod words;

pub use lines::twin_line;
pub use pair::step_pair;
pub use run::run_twin;
pub use twin::TwinEnd;
