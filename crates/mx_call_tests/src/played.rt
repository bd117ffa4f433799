//! Supervisors of two modules over 64 KiB of RAM, for any tables, and what a hart in domain 1 asks and finds.
ghost use Rattle.std.specs.Prelude.{◌≡◌, ◌+◌, ◌<◌, ◌≤◌, length, IfSome};
ghost use Rattle.std.specs.List.{AllByRecursion};
ghost use Rattle.mx_words.specs.Limits.{most_kept};
ghost use Rattle.mx_model.specs.Valid.{IsGate};
ghost use Rattle.mx_table.specs.Tables.{IsLimit};
ghost use Rattle.mx_supervisor.specs.Parts.{parts_of};
ghost use Rattle.mx_call_tests.specs.Calls.{IsReady, IsSample};

use crate::calls::{own_call, play};
use crate::worlds::{machine, one_heap};
use mx_gates::Gates;
use mx_heap::Block;
use mx_model::{Call, Events, Gate};
use mx_owners::Owners;
use mx_plain::row;
use mx_supervisor::{Answer, Supervisor};
use mx_table::PermTables;
use mx_words::{Access, Need, Perm, RAM_BASE, Span};
use std::alloc::Global;

/// 64 KiB of RAM.
const WORDS: u32 = 16384;

/// What most tables here may take.
pub const AMPLE: Need = Need {
    upper: 128,
    leaf: 4096,
    spill: 4096,
};

/// No heap area.
pub const NO_HEAP: Block = Block { first: 0, count: 0 };

/// Tables of two domains, each with one span.
fn tables_of<T: PermTables>(alloc: Global, own: Span, other: Span, limit: Need) -> Option<T>
    requires own { IsSample own }
    requires other { IsSample other }
    requires limit { IsLimit limit }
    ensures modules { IfSome result (λ t. length (T.maps t) ≡ 2) }
    ensures words { IfSome result (λ t. T.size t ≡ 16384) }
{
    let first = row(alloc, own, own.count, 1).ok()?;
    let second = row(alloc, other, other.count, 1).ok()?;
    T::build(alloc, WORDS, &[first, second], limit).ok()
}

/// Gives a range to a domain, where it has a word and there is room for its runs.
fn give(owners: &mut Owners, domain: u32, first: u32, count: u32)
    requires { first + count ≤ length owners.old }
    ensures { length owners.new ≡ length owners.old }
{
    if count > 0 {
        let _ = owners.give(domain, first, count);
    }
}

/// The owners where each domain owns its span, and domain 1 a heap area.
fn owners_of(alloc: Global, own: Span, other: Span, heap: Block) -> Option<Owners>
    requires own { IsSample own }
    requires other { IsSample other }
    requires heap { heap.first + heap.count ≤ 16384 }
    ensures { IfSome result (λ o. length o ≡ 16384) }
{
    let mut owners = Owners::new(alloc, WORDS).ok()?;
    give(&mut owners, 1, own.first, own.count);
    give(&mut owners, 2, other.first, other.count);
    give(&mut owners, 1, heap.first, heap.count);
    Some(owners)
}

/// Domain 1 owns words 1024 to 1027, its heap area from word 3071 on, and 2045 words apart from others from word 8192
/// on. So the
/// owners form 4095 runs.
fn crowded_owners(alloc: Global) -> Option<Owners>
    ensures { IfSome result (λ o. length o ≡ 16384) }
{
    let mut owners = Owners::new(alloc, WORDS).ok()?;
    give(&mut owners, 1, 1024, 4);
    give(&mut owners, 1, 3071, 1025);
    for i in 0..2045 {
        give(&mut owners, 1, 8192 + 2 * i, 1);
    }
    Some(owners)
}

/// Gates of domain 2 into domain 1 at so many words from `first` on.
fn gates_from(first: u32, count: u32) -> Gates
    requires { first + count ≤ 16384 }
    ensures { AllByRecursion (IsGate 2 16384) result }
{
    let mut gates = Gates::new();
    for i in 0..count {
        let _ = gates.add(Gate {
            domain: 2,
            word: first + i,
            target: 1,
        });
    }
    gates
}

/// A supervisor of two modules, each of which owns the words of its span and has its permission there. Domain 1 also
/// has a heap
/// area, and domain 2 a gate into domain 1 at word 0.
pub fn started<T: PermTables + Drop, const N: usize>(
    alloc: Global,
    own: Span,
    other: Span,
    heap: Block,
) -> Option<Supervisor<T, N>>
    requires buffer { N ≤ most_kept }
    requires own { IsSample own }
    requires other { IsSample other }
    requires heap { heap.first + heap.count ≤ 16384 }
    ensures { IfSome result (λ s. IsReady (parts_of T.PermTables s)) }
{
    let tables = tables_of::<T>(alloc, own, other, AMPLE)?;
    let owners = owners_of(alloc, own, other, heap)?;
    let heaps = one_heap(alloc, 2, heap, 0)?;
    machine(alloc, tables, owners, gates_from(0, 1), heaps)
}

/// A supervisor at its limits. Domain 1 has read-write on words 1024 to 1027 and a heap area of 1025 words with so many
/// live blocks
/// of one word from its beginning on; domain 2 has read on all words from 2048 on, owns none, and has 256 gates into
/// domain 1 from
/// word 1024 on. There is room for one run of owners.
pub fn crowded<T: PermTables + Drop, const N: usize>(
    alloc: Global,
    limit: Need,
    blocks: u32,
) -> Option<Supervisor<T, N>>
    requires buffer { N ≤ most_kept }
    requires limit { IsLimit limit }
    ensures { IfSome result (λ s. IsReady (parts_of T.PermTables s)) }
{
    let own = Span {
        first: 1024,
        count: 4,
        perm: Perm::ReadWrite,
    };
    let other = Span {
        first: 2048,
        count: 14336,
        perm: Perm::Read,
    };
    let area = Block {
        first: 3071,
        count: 1025,
    };
    let tables = tables_of::<T>(alloc, own, other, limit)?;
    let owners = crowded_owners(alloc)?;
    let heaps = one_heap(alloc, 2, area, blocks)?;
    machine(alloc, tables, owners, gates_from(1024, 256), heaps)
}

/// What a call of the hart in domain 1 is answered.
pub fn ask<T: PermTables, const N: usize>(
    machine: &mut Supervisor<T, N>,
    number: u32,
    args: [u32; 4],
    out: &mut Events,
) -> Answer
    requires { IsReady (parts_of T.PermTables machine.old) }
    ensures { IsReady (parts_of T.PermTables machine.new) }
{
    play(machine, &own_call(number, args), out)
}

/// What a call of the hart in domain 1 is answered where it has a frame on its cross stack.
pub fn ask_inside<T: PermTables, const N: usize>(
    machine: &mut Supervisor<T, N>,
    number: u32,
    args: [u32; 4],
    out: &mut Events,
) -> Answer
    requires { IsReady (parts_of T.PermTables machine.old) }
    ensures { IsReady (parts_of T.PermTables machine.new) }
{
    let call = Call {
        number,
        args,
        hart: 0,
        domain: 1,
        nested: true,
    };
    play(machine, &call, out)
}

/// The permission of a word in a domain's map.
pub fn right<T: PermTables, const N: usize>(
    machine: &Supervisor<T, N>,
    domain: u32,
    word: u32,
) -> Perm
    requires ready { IsReady (parts_of T.PermTables machine.now) }
    requires first { 1 ≤ domain }
    requires last { domain ≤ 2 }
    requires word { word < 16384 }
{
    machine.checker.perm(domain, word)
}

/// Makes a store of the hart in domain 1 to a word through base register x5. The answer is whether it may.
pub fn store<T: PermTables, const N: usize>(
    machine: &mut Supervisor<T, N>,
    word: u32,
    value: u32,
) -> bool
    requires ready { IsReady (parts_of T.PermTables machine.old) }
    requires word { word < 16384 }
    ensures { IsReady (parts_of T.PermTables machine.new) }
{
    let addr = RAM_BASE + 4 * word;
    if !machine.checker.may(0, 5, 1, addr, Access::Write) {
        return false;
    }
    machine.ram.store(addr, 4, value);
    true
}

/// The first live block of domain 1.
pub fn first_block<T: PermTables, const N: usize>(machine: &Supervisor<T, N>) -> Option<Block>
    requires { IsReady (parts_of T.PermTables machine.now) }
{
    machine.block(1, 0)
}

/// The heap area of domain 1.
pub fn area_of<T: PermTables, const N: usize>(machine: &Supervisor<T, N>) -> Block
    requires { IsReady (parts_of T.PermTables machine.now) }
{
    machine.heap_area(1)
}

/// The first gate.
pub fn first_gate<T: PermTables, const N: usize>(machine: &Supervisor<T, N>) -> Option<Gate> {
    machine.gate(0)
}

/// What a word of RAM holds.
pub fn word_at<T: PermTables, const N: usize>(machine: &Supervisor<T, N>, word: u32) -> u32
    requires ready { IsReady (parts_of T.PermTables machine.now) }
    requires word { word < 16384 }
{
    machine.ram.word(word)
}

/// Who owns a word.
pub fn owner_of<T: PermTables, const N: usize>(machine: &Supervisor<T, N>, word: u32) -> u32
    requires ready { IsReady (parts_of T.PermTables machine.now) }
    requires word { word < 16384 }
{
    machine.owners.owner(word)
}
