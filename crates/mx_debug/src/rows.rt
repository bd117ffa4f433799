//! How many turns a hart may make in a row while breakpoints are set.

ghost use Rattle.std.specs.Prelude.{◌≡◌, true, length};
ghost use Rattle.std.specs.List.{list_any};
ghost use Rattle.mx_any.specs.Machines.{meaning};
ghost use Rattle.mx_model.specs.Gates.{has_gate, is_at};
ghost use Rattle.mx_model.specs.Reads.{flat_reads};
ghost use Rattle.mx_model.specs.Valid.{IsModule};
ghost use Rattle.mx_debug.specs.Entries.{IsClear, faults_in, is_entry, last_stood};

use crate::search::is_trapped;
use crate::session::has;
use mx_any::{AnyMachine, any_machine_is_valid};
use mx_machine::Stretch;
use mx_model::{Events, Gate, Note};
use mx_words::{Access, word_of};

/// How many single turns are made after one that had to be, before one asks again whether more may.
const SINGLE: u64 = 32;

/// How many single turns are left to make, after a row of so many turns.
pub(crate) fn singles_left(singles: u64, row: u64) -> u64 {
    if singles > 0 {
        singles - 1
    } else if row == 1 {
        SINGLE
    } else {
        0
    }
}

/// Whether a hart's domain may execute at none of these addresses, and has no gate at any.
pub(crate) fn is_clear(machine: &AnyMachine, hart: u32, breaks: &[u32]) -> bool
    ensures { result ≡ true → IsClear (meaning machine.now) hart breaks.now }
{
    if breaks.is_empty() {
        return true;
    }
    if hart >= machine.harts() {
        return false;
    }
    any_machine_is_valid(machine);
    !any_entry(machine, machine.place(hart).domain, breaks)
}

// Whether a domain may execute at one of these addresses, or has a gate there.
fn any_entry(machine: &AnyMachine, domain: u32, breaks: &[u32]) -> bool
    requires { IsModule (length (meaning machine.now).core.modules) domain }
    ensures { result
        ≡ list_any (is_entry (flat_reads (meaning machine.now)) (meaning machine.now).core domain)
        breaks.now }
{
    match breaks.split_first() {
        Some((first, rest)) => {
            is_entry(machine, domain, *first) || any_entry(machine, domain, rest)
        }
        None => false,
    }
}

// Whether a domain may execute at an address, or has a gate there.
fn is_entry(machine: &AnyMachine, domain: u32, address: u32) -> bool
    requires { IsModule (length (meaning machine.now).core.modules) domain }
    ensures { result
        ≡ is_entry (flat_reads (meaning machine.now)) (meaning machine.now).core domain address }
{
    any_machine_is_valid(machine);
    match word_of(address, machine.words()) {
        Some(word) => {
            machine.perm(domain, word).allows(Access::Execute) || has_gate(machine, domain, word)
        }
        None => false,
    }
}

// Whether a gate stands for a domain at a word.
fn has_gate(machine: &AnyMachine, domain: u32, word: u32) -> bool
    ensures { result ≡ has_gate (meaning machine.now).core.gates domain word }
{
    any_machine_is_valid(machine);
    let mut i = 0;
    'gates: while let Some(gate) = machine.gate(i) {
        if is_at(&gate, domain, word) {
            return true;
        }
        i += 1;
    }
    false
}

// Whether a gate is for a domain at a word.
fn is_at(gate: &Gate, domain: u32, word: u32) -> bool
    ensures { result ≡ is_at domain word gate.now }
{
    gate.domain == domain && gate.word == word
}

/// Whether the last turn of a row began at a breakpoint; `stood` tells it of the first.
pub(crate) fn last_stood(breaks: &[u32], stood: bool, row: Stretch, events: &Events) -> bool
    ensures { result ≡ last_stood breaks.now stood row.ran row.last events.now.note }
{
    if row.ran == 0 {
        stood
    } else {
        is_trapped(row.last) && faults_in(breaks, events.note())
    }
}

// Whether a note tells of a fault at a breakpoint.
fn faults_in(breaks: &[u32], note: Option<Note>) -> bool
    ensures { result ≡ faults_in breaks.now note }
{
    match note {
        Some(Note::Fault { pc, .. }) => has(breaks, pc),
        Some(Note::Exit { .. }) => false,
        None => false,
    }
}
