//! Runs of a supervisor as lists of steps, for any tables: calls of a hart in domain 1 with their answers, and what is
//! found.
ghost use Rattle.std.specs.Prelude.{◌≤◌, IsTrue};
ghost use Rattle.mx_supervisor.specs.Parts.{parts_of};
ghost use Rattle.mx_call_tests.specs.Calls.{IsReady};

use crate::played::{
    area_of, ask, ask_inside, first_block, first_gate, owner_of, right, store, word_at,
};
use mx_heap::Block;
use mx_model::{Events, Gate};
use mx_supervisor::{Answer, Supervisor};
use mx_table::PermTables;
use mx_words::Perm;

/// One step of a run.
#[derive(Clone, Copy)]
pub enum Step {
    /// A call by its number and its arguments, which answers this number in a0 alone.
    Call(u32, [u32; 4], u32),
    /// An exchange, which answers 0 and this word.
    Exchange([u32; 4], u32),
    /// So many grants of permission none to domain 2, each of one word and 8 bytes after the one before, from an
    /// address on. Each
    /// answers 0.
    Splits(u32, u32),
    /// An exit, which ends the hart with its code.
    Exit([u32; 4]),
    /// An exit of a hart with a frame on its cross stack, which is refused.
    ExitInside([u32; 4]),
    /// The three console bytes of the call before.
    Console([u8; 3]),
    /// A store to a word through base register x5 of this number, and whether it may be made.
    Store(u32, u32, bool),
    /// A word of RAM holds this number.
    Word(u32, u32),
    /// A domain's permission on a word.
    Right(u32, u32, Perm),
    /// A word's owner.
    Owner(u32, u32),
    /// The first live block of domain 1.
    FirstBlock(Option<Block>),
    /// The heap area of domain 1.
    HeapArea(Block),
    /// The first gate.
    FirstGate(Option<Gate>),
}

/// The place of the first step that goes otherwise. Each is taken in the state that those before it left.
pub fn other_step<T: PermTables, const N: usize>(
    machine: &mut Supervisor<T, N>,
    steps: &[Step],
) -> Option<usize>
    requires { IsReady (parts_of T.PermTables machine.old) }
    ensures { IsReady (parts_of T.PermTables machine.new) }
{
    let mut out = Events::new();
    for (i, step) in steps.iter().enumerate() {
        if !goes(machine, step, &mut out) {
            return Some(i);
        }
    }
    None
}

/// Whether a step goes as it says.
fn goes<T: PermTables, const N: usize>(
    machine: &mut Supervisor<T, N>,
    step: &Step,
    out: &mut Events,
) -> bool
    requires { IsReady (parts_of T.PermTables machine.old) }
    ensures { IsReady (parts_of T.PermTables machine.new) }
{
    match *step {
        Step::Call(number, args, a0) => answers(machine, number, args, plain(a0), out),
        Step::Exchange(args, old) => answers(machine, 13, args, exchanged(old), out),
        Step::Splits(first, count) => splits(machine, first, count, out),
        Step::Exit(args) => answers(machine, 1, args, ended(args[0]), out),
        Step::ExitInside(args) => ask_inside(machine, 1, args, out) == plain(NESTED),
        Step::Store(word, value, may) => stores(machine, word, value, may),
        found => finds(machine, found, out),
    }
}

/// The refusal -10.
const NESTED: u32 = 0xFFFF_FFF6;

/// An answer in a0 alone.
fn plain(a0: u32) -> Answer {
    Answer {
        a0,
        a1: None,
        stop: false,
    }
}

/// An exchange's answer.
fn exchanged(old: u32) -> Answer {
    Answer {
        a0: 0,
        a1: Some(old),
        stop: false,
    }
}

/// The answer of an exit.
fn ended(code: u32) -> Answer {
    Answer {
        a0: code,
        a1: None,
        stop: true,
    }
}

/// Whether a call answers so.
fn answers<T: PermTables, const N: usize>(
    machine: &mut Supervisor<T, N>,
    number: u32,
    args: [u32; 4],
    want: Answer,
    out: &mut Events,
) -> bool
    requires { IsReady (parts_of T.PermTables machine.old) }
    ensures { IsReady (parts_of T.PermTables machine.new) }
{
    ask(machine, number, args, out) == want
}

/// Whether each of so many grants of permission none to domain 2, of one word each, answers 0.
fn splits<T: PermTables, const N: usize>(
    machine: &mut Supervisor<T, N>,
    first: u32,
    count: u32,
    out: &mut Events,
) -> bool
    requires { IsReady (parts_of T.PermTables machine.old) }
    ensures { IsReady (parts_of T.PermTables machine.new) }
{
    for i in 0..count {
        let address = first.wrapping_add(i.wrapping_mul(8));
        if !answers(machine, 3, [address, 4, 2, 0], plain(0), out) {
            return false;
        }
    }
    true
}

/// Whether a store may be made as said. It is made where it may.
fn stores<T: PermTables, const N: usize>(
    machine: &mut Supervisor<T, N>,
    word: u32,
    value: u32,
    may: bool,
) -> bool
    requires { IsReady (parts_of T.PermTables machine.old) }
    ensures { IsReady (parts_of T.PermTables machine.new) }
{
    if word >= WORDS {
        return false;
    }
    store(machine, word, value) == may
}

/// Whether what a step says is found. A step that does something finds nothing.
fn finds<T: PermTables, const N: usize>(
    machine: &Supervisor<T, N>,
    step: Step,
    out: &Events,
) -> bool
    requires { IsReady (parts_of T.PermTables machine.now) }
{
    match step {
        Step::Console(bytes) => three_bytes(out) == Some(bytes),
        Step::Word(word, value) => word < WORDS && word_at(machine, word) == value,
        Step::Right(domain, word, perm) => {
            is_module(domain) && word < WORDS && right(machine, domain, word) == perm
        }
        Step::Owner(word, domain) => word < WORDS && owner_of(machine, word) == domain,
        Step::FirstBlock(block) => first_block(machine) == block,
        Step::HeapArea(area) => area_of(machine) == area,
        Step::FirstGate(gate) => first_gate(machine) == gate,
        _ => false,
    }
}

/// The words of RAM.
const WORDS: u32 = 16384;

/// Whether a domain is one of the two.
fn is_module(domain: u32) -> bool
    ensures { IsTrue result → (1 ≤ domain) × (domain ≤ 2) }
{
    1 <= domain && domain <= 2
}

/// The console bytes, where they are three.
fn three_bytes(out: &Events) -> Option<[u8; 3]> {
    if out.len() != 3 {
        return None;
    }
    Some([out.byte(0), out.byte(1), out.byte(2)])
}
