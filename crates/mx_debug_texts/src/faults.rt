//! What is told of a fault, and of the end of a run.

ghost use Rattle.std.specs.Prelude.{◌≡◌};
ghost use Rattle.mx_any.specs.Machines.{meaning};
ghost use Rattle.mx_report.specs.Lines.{exit_line, fault_line, note_line};
ghost use Rattle.mx_debug_texts.specs.Documents.{cause_text, denied_text, fault_head, fault_signal, is_denial};
ghost use Rattle.mx_debug_texts.specs.Documents.{noted_text, over_text, reason_text};
ghost use Rattle.mx_debug_texts.specs.Window.{further};

use crate::named::name_of;
use crate::who::put_who;
use crate::window::{Piece, Window};
use mx_any::AnyMachine;
use mx_manifest::Plan;
use mx_model::{Fault, Note};

/// Puts the report's line of a note, and for a fault its reason. The machine is that before the turn.
pub(crate) fn put_noted(window: &mut Window, machine: &AnyMachine, plan: &Plan, note: &Note)
    ensures { window.new ≡ further window.old (noted_text (meaning machine.now) plan.now note.now) }
{
    put_line(window, note);
    put_reason(window, machine, plan, note);
}

// Puts the report's line of a note.
fn put_line(window: &mut Window, note: &Note)
    ensures { window.new ≡ further window.old (note_line note.now) }
{
    match *note {
        Note::Fault {
            step,
            hart,
            domain,
            pc,
            fault,
        } => put_fault_line(window, step, hart, domain, pc, &fault),
        Note::Exit {
            step,
            hart,
            domain,
            code,
        } => put_exit_line(window, step, hart, domain, code),
    }
}

#[tactic(auto, unfolding(mx_report::specs::Lines::fault_line))]
fn put_fault_line(window: &mut Window, step: u64, hart: u32, domain: u32, pc: u32, fault: &Fault)
    ensures { window.new ≡ further window.old (fault_line step hart domain pc fault.now) }
{
    window.put_pieces(&[
        Piece::Text("fault step="),
        Piece::Number(step),
        Piece::Text(" hart="),
        Piece::Number(hart as u64),
        Piece::Text(" domain="),
        Piece::Number(domain as u64),
        Piece::Text(" pc="),
        Piece::Hex(pc),
        Piece::Text(" cause="),
        Piece::Number(fault.cause as u64),
        Piece::Text(" value="),
        Piece::Hex(fault.value),
        Piece::Text("\n"),
    ]);
}

#[tactic(auto, unfolding(mx_report::specs::Lines::exit_line))]
fn put_exit_line(window: &mut Window, step: u64, hart: u32, domain: u32, code: u32)
    ensures { window.new ≡ further window.old (exit_line step hart domain code) }
{
    window.put_pieces(&[
        Piece::Text("exit step="),
        Piece::Number(step),
        Piece::Text(" hart="),
        Piece::Number(hart as u64),
        Piece::Text(" domain="),
        Piece::Number(domain as u64),
        Piece::Text(" code="),
        Piece::Number(code as u64),
        Piece::Text("\n"),
    ]);
}

// Puts what a fault is, in which module, and why an access is denied.
fn put_reason(window: &mut Window, machine: &AnyMachine, plan: &Plan, note: &Note)
    ensures { window.new ≡ further window.old (reason_text (meaning machine.now) plan.now note.now) }
{
    match *note {
        Note::Fault { domain, fault, .. } => {
            put_head(window, plan, domain, &fault);
            put_denied(window, machine, plan, &fault);
            window.put(b"\n");
        }
        Note::Exit { .. } => {}
    }
}

fn put_head(window: &mut Window, plan: &Plan, domain: u32, fault: &Fault)
    ensures { window.new ≡ further window.old (fault_head plan.now domain fault.now) }
{
    window.put_pieces(&[
        Piece::Text("    "),
        Piece::Text(cause_text(fault.cause)),
        Piece::Text(", in "),
        Piece::Text(name_of(plan, domain)),
    ]);
}

fn put_denied(window: &mut Window, machine: &AnyMachine, plan: &Plan, fault: &Fault)
    ensures { window.new ≡ further window.old (denied_text (meaning machine.now) plan.now fault.now) }
{
    if is_denial(fault.cause) {
        window.put(b": ");
        put_who(window, machine, plan, fault.value);
    }
}

// Whether a fault of this cause denies an access.
fn is_denial(cause: u32) -> bool
    ensures { result ≡ is_denial cause }
{
    cause == 1 || cause == 5 || cause == 7
}

fn cause_text(cause: u32) -> &'static str
    ensures { result.now ≡ cause_text cause }
{
    match cause {
        0 => "jump misaligned",
        1 => "fetch denied",
        2 => "illegal instruction",
        3 => "ebreak",
        4 => "load misaligned",
        5 => "load denied",
        6 => "store misaligned",
        7 => "store denied",
        16 => "frames full",
        17 => "wrong return",
        18 => "empty return",
        19 => "return misaligned",
        20 => "dead domain",
        _ => "fault",
    }
}

/// How a stop by a fault of this cause begins: `T` and its signal in hexadecimal digits.
pub fn fault_signal(cause: u32) -> &'static [u8]
    ensures { result.now ≡ fault_signal cause }
{
    match cause {
        0 | 4 | 6 | 19 => b"T0a",
        2 => b"T04",
        3 => b"T05",
        20 => b"T06",
        _ => b"T0b",
    }
}

/// Puts that the run is over after so many turns.
pub(crate) fn put_over(window: &mut Window, turns: u64)
    ensures { window.new ≡ further window.old (over_text turns) }
{
    window.put_pieces(&[
        Piece::Text("the run is over after "),
        Piece::Number(turns),
        Piece::Text(" turns\n"),
    ]);
}
