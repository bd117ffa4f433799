//! What is told of a hart, and of turns that it made.
use mx_model::TurnKind;

/// Whether a hart runs, waits on its announced call, or is halted.
#[derive(Clone, Copy, PartialEq, Eq, Debug)]
pub enum HartStatus {
    /// It makes turns.
    Running,
    /// It waits until the other harts have heard its call.
    Waiting,
    /// It makes no further turn.
    Halted,
}

/// A hart as it stands between two turns.
#[derive(Clone, Copy, PartialEq, Eq, Debug)]
pub struct HartView {
    /// Whether it runs.
    pub status: HartStatus,
    /// The domain in which it is.
    pub domain: u32,
    /// The address of its next instruction, a multiple of 4.
    pub pc: u32,
    /// How many frames its cross stack holds, at most 64.
    pub frames: u32,
    /// Its registers x0 to x31.
    pub regs: [u32; 32],
}

/// Where a hart stands between two turns: its view without frames and registers.
#[derive(Clone, Copy, PartialEq, Eq, Debug)]
pub struct HartPlace {
    /// Whether it runs.
    pub status: HartStatus,
    /// The domain in which it is.
    pub domain: u32,
    /// The address of its next instruction, a multiple of 4.
    pub pc: u32,
}

/// Turns that a hart made in a row, of which all but the last carried out an instruction and no more.
#[derive(Clone, Copy, PartialEq, Eq)]
pub struct Stretch {
    /// How many came before the last.
    pub ran: u64,
    /// What the last was.
    pub last: TurnKind,
}
