//! Plain values of the machine.

/// Why a turn trapped.
#[derive(Clone, Copy, PartialEq, Eq, Debug)]
pub struct Fault {
    /// The cause: 0 to 7 of an instruction, 16 to 19 of gates, 20 of a dead domain.
    pub cause: u32,
    /// The target, pc, word, address or register that the cause speaks of.
    pub value: u32,
}

/// What a hart returns to when it leaves the domain that it entered through a gate.
#[derive(Clone, Copy, PartialEq, Eq, Debug, Default)]
pub struct Frame {
    /// The return address, a multiple of 4.
    pub back: u32,
    /// The calling domain.
    pub caller: u32,
    /// The caller's x2, x3, x4, x8, x9 and x18 to x27.
    pub kept: [u32; 15],
}

/// A gate into `target` for harts of `domain` that reach a word: a call gate where the two differ, else a return gate.
#[derive(Clone, Copy, PartialEq, Eq, Debug, Default)]
pub struct Gate {
    /// The domain that may pass the gate.
    pub domain: u32,
    /// The number of the RAM word at which the gate stands.
    pub word: u32,
    /// The domain that it leads into.
    pub target: u32,
}

/// A supervisor call as it was made.
#[derive(Clone, Copy, PartialEq, Eq)]
pub struct Call {
    /// The call's number, x17.
    pub number: u32,
    /// Its arguments, x10 to x13.
    pub args: [u32; 4],
    /// The calling hart.
    pub hart: u32,
    /// The calling domain.
    pub domain: u32,
    /// Whether the hart has a frame on its cross stack.
    pub nested: bool,
}

/// A line of the report that a turn makes.
#[derive(Clone, Copy, PartialEq, Eq, Debug)]
pub enum Note {
    /// A turn trapped.
    Fault {
        /// The number of turns made, this one included.
        step: u64,
        /// The hart.
        hart: u32,
        /// The domain in which the fault happened.
        domain: u32,
        /// The hart's pc before the turn.
        pc: u32,
        /// The fault.
        fault: Fault,
    },
    /// A hart ended by supervisor call 1.
    Exit {
        /// The number of turns made, this one included.
        step: u64,
        /// The hart.
        hart: u32,
        /// Its domain.
        domain: u32,
        /// The code that it gave.
        code: u32,
    },
}

/// What a turn was.
#[derive(Clone, Copy, PartialEq, Eq, Debug)]
pub enum TurnKind {
    /// The hart is halted, or there is none of that number.
    Idle,
    /// The hart waits, and its call isn't served yet.
    Waited,
    /// Any other turn: an instruction that neither calls, returns nor faults.
    Ran,
    /// A crossing that pushed a frame.
    Crossed,
    /// A return, or a crossing that a dead target sent back.
    Returned,
    /// A fault.
    Trapped,
    /// A supervisor call was made, or a waiting one served.
    Called,
}
