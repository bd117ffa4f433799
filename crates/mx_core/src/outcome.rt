//! What one instruction answers.
use mx_model::Fault;

/// The end of one instruction.
#[derive(Clone, Copy, PartialEq, Eq, Debug)]
pub enum Outcome {
    /// The hart goes on at this pc.
    Next(u32),
    /// The instruction faulted.
    Trap(Fault),
    /// A supervisor call.
    Call,
    /// A JAL or JALR that is to return: the number of its rd, and its target.
    Back { rd: u32, target: u32 },
}
