//! Gates of a domain in two machines.
ghost use Rattle.std.specs.Prelude.{◌≡◌, ◌+◌, ◌≤◌, ◌++◌};
ghost use Rattle.std.specs.List.{list_all, range_with_len};
ghost use Rattle.mx_laws.specs.Comparison.{same_target};
ghost use Rattle.mx_model.specs.declared.values.Gate.{Gate as GateOf};
ghost use Rattle.mx_model.specs.Agreement.{target_at};
ghost use Rattle.mx_model.specs.Gates.{is_at};
ghost use Rattle.mx_any.specs.Machines.{meaning};

use mx_any::{AnyMachine, any_machine_is_valid};
use mx_model::Gate;

/// Whether a gate is for a domain at a word.
fn is_at(gate: &Gate, domain: u32, word: u32) -> bool
    ensures { result ≡ is_at domain word gate.now }
{
    gate.domain == domain && gate.word == word
}

/// The target of the gate for a domain at a word, if one stands there.
fn target(machine: &AnyMachine, domain: u32, word: u32) -> Option<u32>
    ensures { result ≡ target_at (meaning machine.now).core domain word }
{
    any_machine_is_valid(machine);
    let mut i = 0;
    'gates: while let Some(gate) = machine.gate(i) {
        if is_at(&gate, domain, word) {
            return Some(gate.target);
        }
        i += 1;
    }
    None
}

/// Whether the gate for a domain at a word has the same target in both, or stands in neither.
fn same_target(a: &AnyMachine, b: &AnyMachine, domain: u32, word: u32) -> bool
    ensures { result ≡ same_target (meaning a.now).core (meaning b.now).core domain word }
{
    match (target(a, domain, word), target(b, domain, word)) {
        (Some(x), Some(y)) => x == y,
        (None, None) => true,
        _ => false,
    }
}

/// The same for the words from `first` on, `count` of them.
pub(crate) fn same_targets(
    a: &AnyMachine,
    b: &AnyMachine,
    domain: u32,
    first: u32,
    count: u32,
) -> bool
    requires { first + count ≤ (meaning a.now).core.size }
    ensures { result
        ≡ list_all (same_target (meaning a.now).core (meaning b.now).core domain)
        (range_with_len first count) }
{
    any_machine_is_valid(a);
    for word in first..first + count {
        if !same_target(a, b, domain, word) {
            return false;
        }
    }
    true
}

/// The same for the words of all gates that stand in one of the two, `of`.
fn same_gates_of(of: &AnyMachine, a: &AnyMachine, b: &AnyMachine, domain: u32) -> bool
    ensures { result
        ≡ list_all (λ (g : GateOf).
        same_target (meaning a.now).core (meaning b.now).core domain g.word)
        (meaning of.now).core.gates }
{
    any_machine_is_valid(of);
    let mut i = 0;
    'gates: while let Some(gate) = of.gate(i) {
        if !same_target(a, b, domain, gate.word) {
            return false;
        }
        i += 1;
    }
    true
}

/// Whether the gates of a domain are the same pairs of word and target in both.
pub(crate) fn same_gates(a: &AnyMachine, b: &AnyMachine, domain: u32) -> bool
    ensures { result
        ≡ list_all (λ (g : GateOf).
        same_target (meaning a.now).core (meaning b.now).core domain g.word)
        ((meaning a.now).core.gates ++ (meaning b.now).core.gates) }
{
    same_gates_of(a, a, b, domain) && same_gates_of(b, a, b, domain)
}
