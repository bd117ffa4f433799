//! The gates and the harts of a snapshot.
ghost use Rattle.std.specs.Prelude.{◌≡◌, ◌<◌, ◌≤◌, length, flat_map};
ghost use Rattle.mx_any.specs.Machines.{meaning};
ghost use Rattle.mx_machine.specs.Readings.{was_heard};
ghost use Rattle.mx_model.specs.State.{hart_at};
ghost use Rattle.mx_tail.specs.Tail.{Passes};
ghost use Rattle.mx_words.specs.Counting.{bit};
ghost use Rattle.mx_snapshot.specs.Spelling.{counted, frame_bytes, gate_bytes, hart_bytes, state_bytes};
ghost use Rattle.mx_snapshot.specs.Stored.{heard_of, stored_hart};

use crate::numbers::{bit, put_numbers, status_number};
use mx_any::{AnyMachine, any_machine_is_valid};
use mx_io::{Failed, Sink};
use mx_machine::HartView;
use mx_model::{Frame, Gate};
use mx_tail::Tail;

/// Puts how many gates there are, and each in the order of their list.
#[tactic(auto, unfolding(crate::specs::Spelling::counted))]
pub(crate) fn put_gates<R: Sink>(
    tail: &mut Tail,
    sink: &mut R,
    machine: &AnyMachine,
) -> Result<(), Failed>
    ensures { Passes tail.old (R.state sink.old) (R.state sink.new) tail.new
        (counted gate_bytes (meaning machine.now).core.gates) result }
{
    put_numbers(tail, sink, &[count_gates(machine)])?;
    put_gate_list(tail, sink, machine)
}

fn count_gates(machine: &AnyMachine) -> u32
    ensures { result ≡ length (meaning machine.now).core.gates }
{
    any_machine_is_valid(machine);
    let mut count = 0;
    'gates: while machine.gate(count).is_some() {
        count += 1;
    }
    count
}

fn put_gate_list<R: Sink>(tail: &mut Tail, sink: &mut R, machine: &AnyMachine) -> Result<(), Failed>
    ensures { Passes tail.old (R.state sink.old) (R.state sink.new) tail.new
        (flat_map gate_bytes (meaning machine.now).core.gates) result }
{
    any_machine_is_valid(machine);
    let mut i = 0;
    'gates: while let Some(gate) = machine.gate(i) {
        put_gate(tail, sink, gate)?;
        i += 1;
    }
    Ok(())
}

#[tactic(auto, unfolding(crate::specs::Spelling::gate_bytes))]
fn put_gate<R: Sink>(tail: &mut Tail, sink: &mut R, gate: Gate) -> Result<(), Failed>
    ensures { Passes tail.old (R.state sink.old) (R.state sink.new) tail.new
        (gate_bytes gate) result }
{
    put_numbers(tail, sink, &[gate.domain, gate.word, gate.target])
}

/// Puts each hart.
pub(crate) fn put_harts<R: Sink>(
    tail: &mut Tail,
    sink: &mut R,
    machine: &AnyMachine,
) -> Result<(), Failed>
    ensures { Passes tail.old (R.state sink.old) (R.state sink.new) tail.new
        (flat_map (λ h. hart_bytes (stored_hart h)) (meaning machine.now).core.harts) result }
{
    for hart in 0..machine.harts() {
        put_hart(tail, sink, machine, hart)?;
    }
    Ok(())
}

#[tactic(auto, unfolding(crate::specs::Spelling::hart_bytes))]
fn put_hart<R: Sink>(
    tail: &mut Tail,
    sink: &mut R,
    machine: &AnyMachine,
    hart: u32,
) -> Result<(), Failed>
    requires { hart < length (meaning machine.now).core.harts }
    ensures { Passes tail.old (R.state sink.old) (R.state sink.new) tail.new
        (hart_bytes (stored_hart (hart_at (meaning machine.now).core hart))) result }
{
    let view = machine.hart(hart);
    put_state(tail, sink, &view)?;
    put_frames(tail, sink, machine, hart, view.frames)?;
    put_numbers(tail, sink, &[heard(machine, hart)])
}

#[tactic(auto, unfolding(crate::specs::Spelling::state_bytes))]
fn put_state<R: Sink>(tail: &mut Tail, sink: &mut R, view: &HartView) -> Result<(), Failed>
    ensures { Passes tail.old (R.state sink.old) (R.state sink.new) tail.new
        (state_bytes view.now.status view.now.domain view.now.pc view.now.regs) result }
{
    put_numbers(
        tail,
        sink,
        &[status_number(view.status), view.domain, view.pc],
    )?;
    put_numbers(tail, sink, &view.regs)
}

// Puts how many frames a hart has, and each from the bottom.
#[tactic(auto, unfolding(crate::specs::Spelling::counted))]
fn put_frames<R: Sink>(
    tail: &mut Tail,
    sink: &mut R,
    machine: &AnyMachine,
    hart: u32,
    count: u32,
) -> Result<(), Failed>
    requires hart { hart < length (meaning machine.now).core.harts }
    requires count { count ≡ length (hart_at (meaning machine.now).core hart).frames }
    ensures { Passes tail.old (R.state sink.old) (R.state sink.new) tail.new
        (counted frame_bytes (hart_at (meaning machine.now).core hart).frames) result }
{
    put_numbers(tail, sink, &[count])?;
    put_frame_list(tail, sink, machine, hart)
}

fn put_frame_list<R: Sink>(
    tail: &mut Tail,
    sink: &mut R,
    machine: &AnyMachine,
    hart: u32,
) -> Result<(), Failed>
    requires { hart < length (meaning machine.now).core.harts }
    ensures { Passes tail.old (R.state sink.old) (R.state sink.new) tail.new
        (flat_map frame_bytes (hart_at (meaning machine.now).core hart).frames) result }
{
    any_machine_is_valid(machine);
    let mut i = 0;
    'frames: while let Some(frame) = machine.frame(hart, i) {
        put_frame(tail, sink, &frame)?;
        i += 1;
    }
    Ok(())
}

#[tactic(auto, unfolding(crate::specs::Spelling::frame_bytes))]
fn put_frame<R: Sink>(tail: &mut Tail, sink: &mut R, frame: &Frame) -> Result<(), Failed>
    ensures { Passes tail.old (R.state sink.old) (R.state sink.new) tail.new
        (frame_bytes frame.now) result }
{
    put_numbers(tail, sink, &[frame.back, frame.caller])?;
    put_numbers(tail, sink, &frame.kept)
}

// Who has heard the call on which a hart waits, bit i being hart i's; nobody where it doesn't wait.
fn heard(machine: &AnyMachine, hart: u32) -> u32
    requires { hart < length (meaning machine.now).core.harts }
    ensures { result ≡ heard_of (hart_at (meaning machine.now).core hart).status }
{
    any_machine_is_valid(machine);
    heard_by(machine, hart, 0)
        + 2 * heard_by(machine, hart, 1)
        + 4 * heard_by(machine, hart, 2)
        + 8 * heard_by(machine, hart, 3)
}

// 1 where hart `by`, which may be none, has heard the call on which a hart waits.
fn heard_by(machine: &AnyMachine, hart: u32, by: u32) -> u32
    requires { hart < length (meaning machine.now).core.harts }
    ensures { result ≡ bit (was_heard (hart_at (meaning machine.now).core hart).status by) }
{
    any_machine_is_valid(machine);
    if by < machine.harts() {
        bit(machine.heard(hart, by))
    } else {
        0
    }
}
