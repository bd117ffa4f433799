//! Agreement of two machines by its rule, over what is read of them: word by word and byte by byte.

use mx_any::AnyMachine;
use mx_machine::{HartStatus, HartView};
use mx_model::Gate;
use mx_words::Perm;

/// How many gates a machine has at most.
const GATES: u32 = 256;

/// The permission of a domain on a word, and the word after those round it on which that is the same, where there are
/// such.
fn right(machine: &AnyMachine, domain: u32, word: u32) -> Option<(Perm, u32)> {
    if domain == 0 || domain > machine.modules() || word >= machine.words() {
        return None;
    }
    Some((machine.perm(domain, word), machine.perm_end(domain, word)))
}

/// A byte of a word, where there is such a word.
fn byte(machine: &AnyMachine, word: u32, place: u32) -> Option<u8> {
    let at = word.saturating_mul(4).saturating_add(place);
    if at / 4 >= machine.words() {
        return None;
    }
    Some(machine.byte(at))
}

/// A hart, where there is such.
fn hart(machine: &AnyMachine, number: u32) -> Option<HartView> {
    if number >= machine.harts() {
        return None;
    }
    Some(machine.hart(number))
}

/// Whether a domain is dead, where there is such.
fn dead(machine: &AnyMachine, domain: u32) -> Option<bool> {
    if domain == 0 || domain > machine.modules() {
        return None;
    }
    Some(machine.dead(domain))
}

fn has_same_bytes(a: &AnyMachine, b: &AnyMachine, word: u32) -> bool {
    for place in 0..4 {
        if byte(a, word, place) != byte(b, word, place) {
            return false;
        }
    }
    true
}

/// How many words from one on a domain sees alike in both: this word, or all up to the next one on which it has a
/// permission, where it has
/// none in either. None where it doesn't see this one alike.
fn seen(a: &AnyMachine, b: &AnyMachine, domain: u32, word: u32) -> Option<u32> {
    let Some((one, end)) = right(a, domain, word) else {
        return None;
    };
    let Some((other, until)) = right(b, domain, word) else {
        return None;
    };
    if one != other {
        return None;
    }
    if one == Perm::None {
        return Some(end.min(until));
    }
    if has_same_bytes(a, b, word) {
        Some(word.saturating_add(1))
    } else {
        None
    }
}

fn sees_all_words(a: &AnyMachine, b: &AnyMachine, domain: u32) -> bool {
    let words = a.words();
    let mut word = 0;
    for _ in 0..words {
        if word >= words {
            break;
        }
        match seen(a, b, domain, word) {
            Some(end) => word = end,
            None => return false,
        }
    }
    word >= words
}

/// Whether a gate stands.
fn has_gate(machine: &AnyMachine, gate: Gate) -> bool {
    for i in 0..GATES {
        match machine.gate(i) {
            Some(other) => {
                if other == gate {
                    return true;
                }
            }
            None => return false,
        }
    }
    false
}

/// Whether each gate of a domain in one stands in the other.
fn has_gates(one: &AnyMachine, other: &AnyMachine, domain: u32) -> bool {
    for i in 0..GATES {
        match one.gate(i) {
            Some(gate) => {
                if gate.domain == domain && !has_gate(other, gate) {
                    return false;
                }
            }
            None => return true,
        }
    }
    true
}

fn is_same_hart(one: &HartView, other: &HartView) -> bool {
    one.status == other.status
        && one.pc == other.pc
        && one.regs == other.regs
        && one.domain == other.domain
}

/// Whether two machines agree for a hart.
fn agrees(a: &AnyMachine, b: &AnyMachine, number: u32) -> bool {
    let (Some(one), Some(other)) = (hart(a, number), hart(b, number)) else {
        return false;
    };
    is_same_hart(&one, &other)
        && dead(a, one.domain) == dead(b, one.domain)
        && has_gates(a, b, one.domain)
        && has_gates(b, a, one.domain)
        && sees_all_words(a, b, one.domain)
}

/// Whether a hart isn't halted and is in a domain.
fn is_inside(machine: &AnyMachine, domain: u32, number: u32) -> bool {
    match hart(machine, number) {
        Some(view) => view.status != HartStatus::Halted && view.domain == domain,
        None => false,
    }
}

/// Whether two machines don't agree for a hart that in either isn't halted and is in a domain.
pub(crate) fn fails(a: &AnyMachine, b: &AnyMachine, domain: u32) -> bool {
    for number in 0..a.harts() {
        let compared = is_inside(a, domain, number) || is_inside(b, domain, number);
        if compared && !agrees(a, b, number) {
            return true;
        }
    }
    false
}
