//! What a run and a comparison are asked.

use mx_turns::{Dump, Steps};

/// How a run is made.
#[derive(Clone, Copy, PartialEq, Eq)]
pub enum Way {
    /// From a manifest's boot, with the report of its end.
    Run,
    /// The same from a snapshot on.
    Resume,
    /// From a manifest's boot, with a line for each turn.
    Trace,
}

/// What a run is asked. A name has 1 to 255 bytes.
#[derive(Clone, Copy)]
pub struct Order<'a> {
    /// How it is made.
    pub way: Way,
    /// The name of the manifest, or of the snapshot.
    pub file: &'a str,
    /// The most steps to make.
    pub steps: Steps,
    /// The schedule's name; with none the harts take turns by the plan's quantum.
    pub schedule: Option<&'a str>,
    /// What is shown of it.
    pub shown: Shown,
}

/// What is shown of a run beside what each run of its way shows.
#[derive(Clone, Copy, Default)]
pub struct Shown {
    /// Of a trace the first turn that has a line, at most 9999999999; none is turn 0.
    pub from: Option<u64>,
    /// Whether a trace has the lines of what turns did.
    pub effects: bool,
    /// What goes to the dump, if anything; nothing of a trace.
    pub dump: Option<Dump>,
    /// Whether the report has the lines of the tables.
    pub tables: bool,
    /// Whether the report has the lines of the counts.
    pub counts: bool,
}

/// Two machines to be compared, each at boot. A name has 1 to 255 bytes.
#[derive(Clone, Copy)]
pub struct Pair<'a> {
    /// The first manifest's name.
    pub first: &'a str,
    /// The second manifest's name.
    pub second: &'a str,
    /// The number of the domain that is compared, from 1, at most 9999999999.
    pub domain: u64,
    /// The most steps to make.
    pub steps: Steps,
}
