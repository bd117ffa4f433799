//! What the next turn of a hart touches, read before it.
ghost use Rattle.std.specs.Prelude.{◌≡◌, ◌<◌, length};
ghost use Rattle.mx_heap.specs.HeapState.{area_of};
ghost use Rattle.mx_model.specs.Reads.{flat_reads};
ghost use Rattle.mx_any.specs.Machines.{meaning};
ghost use Rattle.mx_touched.specs.Touched.{called_at, stored_at};
ghost use Rattle.mx_twin.specs.Told.{told};

use crate::reach::{NO_WORDS, Reach, Touched, by_number, range_at, word_at};
use mx_any::{AnyMachine, any_machine_is_valid};
use mx_heap::Block;
use mx_isa::Inst;

/// The word to which the instruction at a hart's pc stores.
fn stored(machine: &AnyMachine, hart: u32) -> Block
    requires { hart < length (meaning machine.now).core.harts }
    ensures { area_of result
        ≡ stored_at (flat_reads (meaning machine.now)) (meaning machine.now).core hart }
{
    any_machine_is_valid(machine);
    let view = machine.hart(hart);
    match machine.instruction(hart) {
        Some(Inst::Store { rs1, imm, .. }) => {
            word_at(view.regs[rs1 as usize].wrapping_add(imm), machine.words())
        }
        _ => NO_WORDS,
    }
}

/// What the call that a hart's registers name touches.
fn called(machine: &AnyMachine, hart: u32) -> Touched
    requires { hart < length (meaning machine.now).core.harts }
    ensures { told result ≡ called_at (meaning machine.now).core hart }
{
    any_machine_is_valid(machine);
    let view = machine.hart(hart);
    let words = machine.words();
    by_number(
        view.regs[17],
        range_at(view.regs[10], view.regs[11], words),
        machine.heap_area(view.domain),
        word_at(view.regs[10], words),
    )
}

impl Reach {
    /// Reads what the next turn of a hart may touch.
    pub(crate) fn before(machine: &AnyMachine, hart: u32) -> Reach
        requires { hart < length (meaning machine.now).core.harts }
        ensures stored { area_of result.stored
            ≡ stored_at (flat_reads (meaning machine.now)) (meaning machine.now).core hart }
        ensures called { told result.called ≡ called_at (meaning machine.now).core hart }
    {
        Reach {
            stored: stored(machine, hart),
            called: called(machine, hart),
        }
    }
}
