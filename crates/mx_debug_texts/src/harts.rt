//! What is told of harts.

ghost use Rattle.std.specs.Prelude.{◌≡◌, ◌<◌, ◌-◌, ◌^◌, ◌++◌, flat_map, length, slice_get};
ghost use Rattle.std.specs.List.{range_with_len};
ghost use Rattle.mx_any.specs.Machines.{meaning};
ghost use Rattle.mx_model.specs.State.{hart_at};
ghost use Rattle.mx_debug_texts.specs.Documents.{hart_text, is_next, name_of, path_text, status_text, thread_head};
ghost use Rattle.mx_debug_texts.specs.Documents.{thread_text, threads_text, unended_text};
ghost use Rattle.mx_debug_texts.specs.Window.{further};

use crate::named::put_name;
use crate::window::{Piece, Window};
use mx_any::{AnyMachine, any_machine_is_valid};
use mx_machine::HartStatus;
use mx_manifest::Plan;
use mx_model::Frame;

/// Puts all harts as threads. `next` is the hart whose turn is next, if there is one.
pub(crate) fn put_threads(window: &mut Window, machine: &AnyMachine, plan: &Plan, next: Option<u32>)
    ensures { window.new ≡ further window.old (threads_text plan.now (meaning machine.now).core next) }
{
    window.put(b"<threads>");
    put_each(window, machine, plan, next);
    window.put(b"</threads>");
}

fn put_each(window: &mut Window, machine: &AnyMachine, plan: &Plan, next: Option<u32>)
    ensures { window.new ≡ further window.old (flat_map (thread_text plan.now (meaning machine.now).core next)
        (range_with_len 0 (length (meaning machine.now).core.harts))) }
{
    for hart in 0..machine.harts() {
        put_thread(window, machine, plan, next, hart);
    }
}

fn put_thread(window: &mut Window, machine: &AnyMachine, plan: &Plan, next: Option<u32>, hart: u32)
    requires { hart < length (meaning machine.now).core.harts }
    ensures { window.new ≡ further window.old (thread_text plan.now (meaning machine.now).core next hart) }
{
    any_machine_is_valid(machine);
    put_head(window, hart);
    put_hart(window, machine, plan, b" &gt; ", next, hart);
    window.put(b"</thread>");
}

fn put_head(window: &mut Window, hart: u32)
    requires { hart < 2 ^ 32 - 1 }
    ensures { window.new ≡ further window.old (thread_head hart) }
{
    window.put_pieces(&[
        Piece::Text("<thread id=\"p1."),
        Piece::Short(hart + 1),
        Piece::Text("\" name=\"hart "),
        Piece::Number(hart as u64),
        Piece::Text("\">"),
    ]);
}

/// Puts what is told of a hart: its path through gates, with arrows between the domains, and its status.
pub(crate) fn put_hart(
    window: &mut Window,
    machine: &AnyMachine,
    plan: &Plan,
    arrow: &[u8],
    next: Option<u32>,
    hart: u32,
)
    requires { hart < length (meaning machine.now).core.harts }
    ensures { window.new
        ≡ further window.old (hart_text plan.now arrow.now (meaning machine.now).core next hart) }
{
    put_path(window, machine, plan, arrow, hart);
    put_status(window, machine, hart, is_next(next, hart));
}

fn put_status(window: &mut Window, machine: &AnyMachine, hart: u32, next: bool)
    requires { hart < length (meaning machine.now).core.harts }
    ensures { window.new ≡ further window.old (status_text (hart_at (meaning machine.now).core hart).status next) }
{
    match machine.exit(hart) {
        Some(code) => window.put_pieces(&[
            Piece::Text(", halted by exit, code "),
            Piece::Number(code as u64),
        ]),
        None => window.put(unended(machine.place(hart).status, next)),
    }
}

fn put_path(window: &mut Window, machine: &AnyMachine, plan: &Plan, arrow: &[u8], hart: u32)
    requires { hart < length (meaning machine.now).core.harts }
    ensures { window.new
        ≡ further window.old (path_text plan.now arrow.now (hart_at (meaning machine.now).core hart)) }
{
    put_callers(window, machine, plan, arrow, hart);
    put_name(window, plan, machine.place(hart).domain);
}

fn put_callers(window: &mut Window, machine: &AnyMachine, plan: &Plan, arrow: &[u8], hart: u32)
    requires { hart < length (meaning machine.now).core.harts }
    ensures { window.new ≡ further window.old (flat_map (λ (f : Frame). name_of plan.now f.caller ++ arrow.now)
        (hart_at (meaning machine.now).core hart).frames) }
{
    let count = machine.hart(hart).frames;
    for i in 0..count {
        put_caller(window, plan, frame_at(machine, hart, i).caller, arrow);
    }
}

// A frame that is there.
fn frame_at(machine: &AnyMachine, hart: u32, i: u32) -> Frame
    requires hart { hart < length (meaning machine.now).core.harts }
    requires frame { i < length (hart_at (meaning machine.now).core hart).frames }
    ensures { slice_get (hart_at (meaning machine.now).core hart).frames i ≡ Some result }
{
    match machine.frame(hart, i) {
        Some(frame) => frame,
        None => Frame::default(),
    }
}

fn put_caller(window: &mut Window, plan: &Plan, caller: u32, arrow: &[u8])
    ensures { window.new ≡ further window.old (name_of plan.now caller ++ arrow.now) }
{
    put_name(window, plan, caller);
    window.put(arrow);
}

fn is_next(next: Option<u32>, hart: u32) -> bool
    ensures { result ≡ is_next next hart }
{
    match next {
        Some(number) => number == hart,
        None => false,
    }
}

// The status of a hart that no exit has ended.
fn unended(status: HartStatus, next: bool) -> &'static [u8]
    ensures { result.now ≡ unended_text status next }
{
    match (status, next) {
        (HartStatus::Running, false) => b", running",
        (HartStatus::Running, true) => b", running, next",
        (HartStatus::Waiting, false) => b", waiting",
        (HartStatus::Waiting, true) => b", waiting, next",
        (HartStatus::Halted, _) => b", halted by a fault",
    }
}
