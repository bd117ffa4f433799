//! What a snapshot gives back.

use mx_any::AnyMachine;
use mx_snapshot::Kept;

/// A machine that goes on where a snapshot left it, and what the snapshot kept of the plan from which it booted.
#[derive(Drop)]
pub struct Resumed {
    /// The machine.
    pub machine: AnyMachine,
    /// What is kept of its plan.
    pub plan: Kept,
}
