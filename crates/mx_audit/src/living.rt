//! Live domains.

ghost use Rattle.std.specs.Bool.{OnFalse, OnTrue};
ghost use Rattle.std.specs.Prelude.{◌≡◌, ◌<◌, true, length, slice_set};
ghost use Rattle.mx_words.specs.Limits.{most_domains};
ghost use Rattle.mx_model.specs.State.{hart_at};
ghost use Rattle.mx_any.specs.Machines.{meaning};
ghost use Rattle.mx_audit.specs.Marks.{KeepMarks, MarkHart, MarkHarts, MarkLive, MarkOnlyLive, MarkTargets, is_marked};
ghost use Rattle.mx_audit.specs.Marks.{unmarked};

use mx_any::{AnyMachine, any_machine_is_valid};
use mx_words::MOST_DOMAINS;

/// Marks the live domains: those of the harts and of the callers of their frames, and then targets of gates until a
/// pass over the gates
/// marks none. Each pass but the last marks a domain.
pub(crate) fn live_domains(machine: &AnyMachine) -> [bool; MOST_DOMAINS]
    ensures { MarkLive (meaning machine.now).core result }
{
    let mut live = [false; MOST_DOMAINS];
    mark_harts(machine, &mut live);
    'passes: loop {
        if !mark_targets(machine, &mut live) {
            return live;
        }
    }
}

/// Whether a domain is marked. None that there can't be is.
pub(crate) fn is_marked(live: &[bool; MOST_DOMAINS], domain: usize) -> bool
    ensures { result ≡ is_marked live.now domain }
{
    domain < MOST_DOMAINS && live[domain]
}

// Marks the domains in which harts are, and those to which they can return.
fn mark_harts(machine: &AnyMachine, live: &mut [bool; MOST_DOMAINS])
    requires only { MarkOnlyLive (meaning machine.now).core live.old }
    ensures only { MarkOnlyLive (meaning machine.now).core live.new }
    ensures harts { MarkHarts (meaning machine.now).core live.new }
{
    for hart in 0..machine.harts() {
        mark_hart(machine, hart, live);
    }
}

fn mark_hart(machine: &AnyMachine, hart: u32, live: &mut [bool; MOST_DOMAINS])
    requires hart { hart < length (meaning machine.now).core.harts }
    requires only { MarkOnlyLive (meaning machine.now).core live.old }
    ensures only { MarkOnlyLive (meaning machine.now).core live.new }
    ensures kept { KeepMarks live.old live.new }
    ensures home { MarkHart live.new (hart_at (meaning machine.now).core hart) }
{
    any_machine_is_valid(machine);
    let view = machine.hart(hart);
    mark(live, view.domain);
    let mut i = 0;
    'frames: while let Some(frame) = machine.frame(hart, i) {
        mark(live, frame.caller);
        i += 1;
    }
}

// Marks the targets of the gates of marked domains, in one pass over the gates, and tells whether that marked a domain.
fn mark_targets(machine: &AnyMachine, live: &mut [bool; MOST_DOMAINS]) -> bool
    requires only { MarkOnlyLive (meaning machine.now).core live.old }
    ensures only { MarkOnlyLive (meaning machine.now).core live.new }
    ensures kept { KeepMarks live.old live.new }
    ensures more { OnTrue result (unmarked live.new < unmarked live.old) }
    ensures all { OnFalse result (MarkTargets (meaning machine.now).core live.new) }
{
    any_machine_is_valid(machine);
    let mut more = false;
    let mut i = 0;
    'gates: while let Some(gate) = machine.gate(i) {
        if is_marked(live, gate.domain as usize) && !is_marked(live, gate.target as usize) {
            mark(live, gate.target);
            more = true;
        }
        i += 1;
    }
    more
}

// Marks a domain.
fn mark(live: &mut [bool; MOST_DOMAINS], domain: u32)
    requires { domain < most_domains }
    ensures { live.new ≡ slice_set live.old domain true }
{
    live[domain as usize] = true;
}
