//! Who may do what at a word.

ghost use Rattle.std.specs.Prelude.{◌≡◌, ◌<◌, ◌≤◌, ◌||◌, not, nat_lt, drop, flat_map, length};
ghost use Rattle.mx_any.specs.Machines.{meaning};
ghost use Rattle.mx_model.specs.Reads.{flat_reads};
ghost use Rattle.mx_report.specs.Lines.{permission_name};
ghost use Rattle.mx_words.specs.Ranges.{address_of, most_words};
ghost use Rattle.mx_debug_texts.specs.Documents.{comma, gate_here, gate_text, is_none, name_of, next_right, owned_text};
ghost use Rattle.mx_debug_texts.specs.Documents.{owner_text, right_of, rights_at, rights_text, who_text, word_text};
ghost use Rattle.mx_debug_texts.specs.Window.{further};

use crate::named::name_of;
use crate::window::{Piece, Window};
use mx_any::{AnyMachine, any_machine_is_valid};
use mx_manifest::Plan;
use mx_model::Gate;
use mx_words::{MOST_GATES, Perm, RAM_BASE, word_of};

/// Puts who may do what at the word of an address.
pub(crate) fn put_who(window: &mut Window, machine: &AnyMachine, plan: &Plan, address: u32)
    ensures { window.new ≡ further window.old (who_text (meaning machine.now) plan.now address) }
{
    any_machine_is_valid(machine);
    match word_of(address, machine.words()) {
        Some(word) => put_word(window, machine, plan, word),
        None => window.put_pieces(&[Piece::Hex(address), Piece::Text(" is outside RAM")]),
    }
}

fn put_word(window: &mut Window, machine: &AnyMachine, plan: &Plan, word: u32)
    requires { word < (meaning machine.now).core.size }
    ensures { window.new ≡ further window.old (word_text (meaning machine.now) plan.now word) }
{
    any_machine_is_valid(machine);
    put_owned(window, plan, word, machine.owner(word));
    put_rights(window, machine, plan, word);
    put_gates(window, machine, plan, word);
}

// Puts whose word it is.
fn put_owned(window: &mut Window, plan: &Plan, word: u32, owner: u32)
    requires { word ≤ most_words }
    ensures { window.new ≡ further window.old (owned_text plan.now word owner) }
{
    window.put_pieces(&[
        Piece::Hex(address(word)),
        Piece::Text(" is owned by "),
        Piece::Text(owner_of(plan, owner)),
        Piece::Text("; "),
    ]);
}

// The address of a word.
fn address(word: u32) -> u32
    requires { word ≤ most_words }
    ensures { result ≡ address_of word }
{
    RAM_BASE + 4 * word
}

fn owner_of(plan: &Plan, owner: u32) -> &str
    ensures { result.now ≡ owner_text plan.now owner }
{
    if owner == 0 {
        "nobody"
    } else {
        name_of(plan, owner)
    }
}

// Puts the rights of all domains.
fn put_rights(window: &mut Window, machine: &AnyMachine, plan: &Plan, word: u32)
    requires { word < (meaning machine.now).core.size }
    ensures { window.new
        ≡ further window.old (rights_text (rights_at (meaning machine.now) plan.now word)) }
{
    let some = put_each_right(window, machine, plan, word);
    if !some {
        window.put(b"nobody has a right");
    }
}

// Puts those that are there, and tells whether there is one.
fn put_each_right(window: &mut Window, machine: &AnyMachine, plan: &Plan, word: u32) -> bool
    requires { word < (meaning machine.now).core.size }
    ensures text { window.new
        ≡ further window.old (drop 2 (rights_at (meaning machine.now) plan.now word)) }
    ensures some { result ≡ nat_lt 0 (length (rights_at (meaning machine.now) plan.now word)) }
{
    let mut some = false;
    for i in 0..machine.modules() {
        some = put_right(window, plan, i + 1, machine.perm(i + 1, word), some);
    }
    some
}

// Puts a right, with a comma before it unless it is the first, and tells whether there is one by now.
fn put_right(window: &mut Window, plan: &Plan, domain: u32, perm: Perm, some: bool) -> bool
    ensures text { window.new ≡ further window.old (next_right plan.now domain perm some) }
    ensures some { result ≡ (some || not (is_none perm)) }
{
    if is_none(perm) {
        return some;
    }
    window.put(comma(some));
    put_right_of(window, plan, domain, perm);
    true
}

fn is_none(perm: Perm) -> bool
    ensures { result ≡ is_none perm }
{
    match perm {
        Perm::None => true,
        Perm::Read | Perm::ReadWrite | Perm::ExecuteRead => false,
    }
}

fn comma(some: bool) -> &'static [u8]
    ensures { result.now ≡ comma some }
{
    if some { b", " } else { b"" }
}

fn put_right_of(window: &mut Window, plan: &Plan, domain: u32, perm: Perm)
    ensures { window.new ≡ further window.old (right_of plan.now domain perm) }
{
    window.put_pieces(&[
        Piece::Text(name_of(plan, domain)),
        Piece::Text(" "),
        Piece::Text(perm_name(perm)),
    ]);
}

fn perm_name(perm: Perm) -> &'static str
    ensures { result.now ≡ permission_name perm }
{
    match perm {
        Perm::None => "-",
        Perm::Read => "r",
        Perm::ReadWrite => "rw",
        Perm::ExecuteRead => "rx",
    }
}

// Puts the gates at a word, in order.
fn put_gates(window: &mut Window, machine: &AnyMachine, plan: &Plan, word: u32)
    ensures { window.new
        ≡ further window.old (flat_map (gate_text plan.now word) (meaning machine.now).core.gates) }
{
    any_machine_is_valid(machine);
    'gates: for i in 0..MOST_GATES as u32 {
        match machine.gate(i) {
            Some(gate) => put_gate(window, plan, word, &gate),
            None => return,
        }
    }
}

// Puts a gate that stands at this word.
fn put_gate(window: &mut Window, plan: &Plan, word: u32, gate: &Gate)
    ensures { window.new ≡ further window.old (gate_text plan.now word gate.now) }
{
    if gate.word == word {
        put_gate_here(window, plan, gate);
    }
}

fn put_gate_here(window: &mut Window, plan: &Plan, gate: &Gate)
    ensures { window.new ≡ further window.old (gate_here plan.now gate.now) }
{
    if gate.domain == gate.target {
        window.put_pieces(&[
            Piece::Text("; return gate of "),
            Piece::Text(name_of(plan, gate.domain)),
        ]);
    } else {
        window.put_pieces(&[
            Piece::Text("; gate of "),
            Piece::Text(name_of(plan, gate.target)),
            Piece::Text(" for "),
            Piece::Text(name_of(plan, gate.domain)),
        ]);
    }
}
