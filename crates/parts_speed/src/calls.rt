//! Supervisor calls of a hart that is alone, over tables of 64 MiB of RAM.
ghost use Rattle.std.specs.Prelude.{◌≡◌, ◌≤◌, All, length, vec_len, IfSome};
ghost use Rattle.mx_words.specs.Limits.{most_modules, most_kept};
ghost use Rattle.mx_table.specs.Tables.{IsRow};
ghost use Rattle.mx_supervisor.specs.Parts.{parts_of};
ghost use Rattle.mx_call_tests.specs.Calls.{IsAtRest};

use mx_call_tests::calls::{own_call, play};
use mx_call_tests::worlds::{machine, one_heap};
use mx_gates::Gates;
use mx_heap::Block;
use mx_model::Events;
use mx_owners::Owners;
use mx_plain::row;
use mx_supervisor::Supervisor;
use mx_table::PermTables;
use mx_words::{MOST_WORDS, Need, Perm, Span, Spans};
use std::alloc::Global;

/// What the tables may take.
const LIMIT: Need = Need {
    upper: 128,
    leaf: 4096,
    spill: 4096,
};

/// Domain 1 owns the words of a page, with read-write.
const OWN: Span = Span {
    first: 1024,
    count: 1024,
    perm: Perm::ReadWrite,
};

/// Its heap area.
const HEAP: Block = Block {
    first: 4096,
    count: 4096,
};

/// The address of the first word of `OWN`.
const WORD: u32 = 0x8000_1000;

/// The rows of so many domains, of which the first has one span and the others none.
fn rows(alloc: Global, modules: u32) -> Option<Vec<Spans>>
    ensures rows { IfSome result (λ v. All (IsRow 16777216) v.items) }
    ensures count { IfSome result (λ v. vec_len v ≡ modules) }
{
    let mut rows = Vec::new(alloc);
    for module in 0..modules {
        let row = row_of(alloc, module)?;
        rows.push(row).ok()?;
    }
    Some(rows)
}

/// The row at a place.
fn row_of(alloc: Global, place: u32) -> Option<Spans>
    ensures { IfSome result (IsRow 16777216) }
{
    let spans = if place == 0 { 1 } else { 0 };
    row(alloc, OWN, OWN.count, spans).ok()
}

/// The owners of so many words, where domain 1 owns its page and its heap area.
fn owners(alloc: Global, words: u32) -> Option<Owners>
    requires few { 8192 ≤ words }
    requires most { words ≤ 16777216 }
    ensures { IfSome result (λ o. length o ≡ words) }
{
    let mut owners = Owners::new(alloc, words).ok()?;
    let _ = owners.give(1, OWN.first, OWN.count);
    let _ = owners.give(1, HEAP.first, HEAP.count);
    Some(owners)
}

/// A supervisor of so many modules and one hart. `None` where there is no memory.
pub fn with_modules<T: PermTables + Drop, const N: usize>(
    alloc: Global,
    modules: u32,
) -> Option<Supervisor<T, N>>
    requires some { 1 ≤ modules }
    requires few { modules ≤ most_modules }
    requires buffer { N ≤ most_kept }
    ensures { IfSome result (λ s. IsAtRest 0 1 (parts_of T.PermTables s)) }
{
    let rows = rows(alloc, modules)?;
    let Ok(tables) = T::build(alloc, MOST_WORDS, &rows, LIMIT) else {
        return None;
    };
    let owners = owners(alloc, MOST_WORDS)?;
    let heaps = one_heap(alloc, modules, HEAP, 0)?;
    machine(alloc, tables, owners, Gates::new(), heaps)
}

/// What a0 takes after a call of the hart in domain 1.
fn ask<T: PermTables, const N: usize>(
    machine: &mut Supervisor<T, N>,
    number: u32,
    args: [u32; 4],
    out: &mut Events,
) -> u32
    requires { IsAtRest 0 1 (parts_of T.PermTables machine.old) }
    ensures { IsAtRest 0 1 (parts_of T.PermTables machine.new) }
{
    play(machine, &own_call(number, args), out).a0
}

/// Grants a word to a domain, so often, with permission none and read in turn. The answer is how often it was done.
pub fn grants_done<T: PermTables, const N: usize>(
    machine: &mut Supervisor<T, N>,
    domain: u32,
    rounds: u64,
) -> u64
    requires { IsAtRest 0 1 (parts_of T.PermTables machine.old) }
    ensures { IsAtRest 0 1 (parts_of T.PermTables machine.new) }
{
    let mut out = Events::new();
    let mut done = 0u64;
    for i in 0..rounds {
        let perm = (i % 2) as u32;
        if ask(machine, 3, [WORD, 4, domain, perm], &mut out) == 0 {
            done = done.wrapping_add(1);
        }
    }
    done
}

/// Makes a block of so many words and ends it, so often. The answer is how often there was one to end.
pub fn blocks_ended<T: PermTables, const N: usize>(
    machine: &mut Supervisor<T, N>,
    words: u32,
    rounds: u64,
) -> u64
    requires { IsAtRest 0 1 (parts_of T.PermTables machine.old) }
    ensures { IsAtRest 0 1 (parts_of T.PermTables machine.new) }
{
    let mut out = Events::new();
    let mut ended = 0u64;
    for _ in 0..rounds {
        let addr = ask(machine, 6, [words, 0, 0, 0], &mut out);
        if ask(machine, 7, [addr, 0, 0, 0], &mut out) == 0 {
            ended = ended.wrapping_add(1);
        }
    }
    ended
}

/// Transfers a word of domain 1 to domain 1 itself, so often. The answer is how often it was done.
pub fn transfers_done<T: PermTables, const N: usize>(
    machine: &mut Supervisor<T, N>,
    rounds: u64,
) -> u64
    requires { IsAtRest 0 1 (parts_of T.PermTables machine.old) }
    ensures { IsAtRest 0 1 (parts_of T.PermTables machine.new) }
{
    times_answered(machine, 5, [WORD, 4, 1, 0], 0, rounds)
}

/// Asks for domain 1's permission on a word of its heap area, so often. The answer is how often it was none.
pub fn queries_answered<T: PermTables, const N: usize>(
    machine: &mut Supervisor<T, N>,
    rounds: u64,
) -> u64
    requires { IsAtRest 0 1 (parts_of T.PermTables machine.old) }
    ensures { IsAtRest 0 1 (parts_of T.PermTables machine.new) }
{
    times_answered(machine, 11, [0x8000_4000, 1, 0, 0], 0, rounds)
}

/// Asks for the hart and its domain, so often. The answer is how often these were hart 0 and domain 1.
pub fn selves_told<T: PermTables, const N: usize>(
    machine: &mut Supervisor<T, N>,
    rounds: u64,
) -> u64
    requires { IsAtRest 0 1 (parts_of T.PermTables machine.old) }
    ensures { IsAtRest 0 1 (parts_of T.PermTables machine.new) }
{
    times_answered(machine, 12, [0; 4], 1, rounds)
}

/// How often a call, made so often, is answered so.
fn times_answered<T: PermTables, const N: usize>(
    machine: &mut Supervisor<T, N>,
    number: u32,
    args: [u32; 4],
    want: u32,
    rounds: u64,
) -> u64
    requires { IsAtRest 0 1 (parts_of T.PermTables machine.old) }
    ensures { IsAtRest 0 1 (parts_of T.PermTables machine.new) }
{
    let mut out = Events::new();
    let mut times = 0u64;
    for _ in 0..rounds {
        if ask(machine, number, args, &mut out) == want {
            times = times.wrapping_add(1);
        }
    }
    times
}
