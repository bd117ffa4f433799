//! Why a run stops.

use mx_model::Note;

/// A step: turns of a hart while it is at an address from the first one on and below the end. At least one is made.
#[derive(Clone, Copy)]
pub struct Step {
    /// The hart.
    pub hart: u32,
    /// The first address of the range.
    pub first: u32,
    /// The address behind the range.
    pub end: u32,
}

/// Why a run stands where it stands.
#[derive(Clone, Copy)]
pub enum Stop {
    /// The hart whose turn is next is at a breakpoint.
    Breaks(u32),
    /// The next turn, of this hart, traps, and notes this.
    Faults(u32, Option<Note>),
    /// The last turn, of this hart, ended the step that was asked; or the next one is the turn back to which was asked.
    Steps(u32),
    /// The run makes no further turn.
    Ends,
    /// No turn was made.
    Begins,
    /// It made as many turns as it makes at a time.
    Pauses,
}

/// Where a search forward left a run.
#[derive(Clone, Copy)]
pub struct Found {
    /// The number of turns after which it stops.
    pub made: u64,
    /// Why it stops there.
    pub stop: Stop,
    /// Whether the machine made one turn more, which trapped.
    pub past: bool,
}
