//! What a run is asked beside its machine.

use crate::pace::Schedule;
use mx_report::Options;

/// What goes to the dump.
#[derive(Clone, Copy, PartialEq, Eq)]
pub enum Dump {
    /// RAM's bytes, from the first on.
    Ram,
    /// A snapshot of the machine and of what is kept of its plan.
    Snapshot,
}

/// What a run is asked.
#[derive(Clone, Copy)]
pub struct Task<'a> {
    /// The most turns that it makes.
    pub steps: u64,
    /// What names the hart of each turn.
    pub schedule: Schedule<'a>,
    /// What the closing lines show beside those that each run has.
    pub options: Options,
    /// What goes to the dump, if anything.
    pub dump: Option<Dump>,
}
