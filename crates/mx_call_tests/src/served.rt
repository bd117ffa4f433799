//! The supervisor's calls over each kind of tables, with their answers by the table of calls (docs/MACHINE.md,
//! "Supervisor calls").
ghost use Rattle.std.specs.Prelude.{◌+◌, ◌≤◌};
ghost use Rattle.mx_table.specs.Tables.{IsLimit};
ghost use Rattle.mx_call_tests.specs.Calls.{IsSample};

use crate::played::{AMPLE, NO_HEAP, crowded, started};
use crate::steps::{Step, other_step};
use mx_heap::Block;
use mx_model::Gate;
use mx_packed::Packed;
use mx_segments::Segments;
use mx_trie::{Trie, Vector};
use mx_words::{Kind, Need, NoMemory, Perm, Span};
use std::alloc::Global;

/// The place of the first step that goes otherwise, if any.
type Went = Result<Option<usize>, NoMemory>;

/// All steps go as they say.
const WELL: Went = Ok(None);

/// The place of the first step that goes otherwise over segment tables, from a start.
fn over_segments(alloc: Global, own: Span, other: Span, heap: Block, steps: &[Step]) -> Went
    requires own { IsSample own }
    requires other { IsSample other }
    requires heap { heap.first + heap.count ≤ 16384 }
{
    match started::<Segments, 8>(alloc, own, other, heap) {
        Some(mut machine) => Ok(other_step(&mut machine, steps)),
        None => Err(NoMemory),
    }
}

/// The place of the first step that goes otherwise over a multilevel trie, from a start.
fn over_multilevel(alloc: Global, own: Span, other: Span, heap: Block, steps: &[Step]) -> Went
    requires own { IsSample own }
    requires other { IsSample other }
    requires heap { heap.first + heap.count ≤ 16384 }
{
    match started::<Trie<Vector>, 8>(alloc, own, other, heap) {
        Some(mut machine) => Ok(other_step(&mut machine, steps)),
        None => Err(NoMemory),
    }
}

/// The place of the first step that goes otherwise over a packed trie, from a start.
fn over_packed(alloc: Global, own: Span, other: Span, heap: Block, steps: &[Step]) -> Went
    requires own { IsSample own }
    requires other { IsSample other }
    requires heap { heap.first + heap.count ≤ 16384 }
{
    match started::<Trie<Packed>, 8>(alloc, own, other, heap) {
        Some(mut machine) => Ok(other_step(&mut machine, steps)),
        None => Err(NoMemory),
    }
}

/// The same over tables of a kind.
fn over(kind: Kind, alloc: Global, own: Span, other: Span, heap: Block, steps: &[Step]) -> Went
    requires own { IsSample own }
    requires other { IsSample other }
    requires heap { heap.first + heap.count ≤ 16384 }
{
    match kind {
        Kind::Segments => over_segments(alloc, own, other, heap, steps),
        Kind::Multilevel => over_multilevel(alloc, own, other, heap, steps),
        Kind::Packed => over_packed(alloc, own, other, heap, steps),
    }
}

/// The same over tables of each kind.
fn over_each(alloc: Global, own: Span, other: Span, heap: Block, steps: &[Step]) -> [Went; 3]
    requires own { IsSample own }
    requires other { IsSample other }
    requires heap { heap.first + heap.count ≤ 16384 }
{
    [
        over(Kind::Segments, alloc, own, other, heap, steps),
        over(Kind::Multilevel, alloc, own, other, heap, steps),
        over(Kind::Packed, alloc, own, other, heap, steps),
    ]
}

/// The same of a supervisor at its limits, with so many live blocks.
fn over_crowded_segments(alloc: Global, limit: Need, blocks: u32, steps: &[Step]) -> Went
    requires { IsLimit limit }
{
    match crowded::<Segments, 8>(alloc, limit, blocks) {
        Some(mut machine) => Ok(other_step(&mut machine, steps)),
        None => Err(NoMemory),
    }
}

/// The same of a supervisor at its limits, with so many live blocks.
fn over_crowded_multilevel(alloc: Global, limit: Need, blocks: u32, steps: &[Step]) -> Went
    requires { IsLimit limit }
{
    match crowded::<Trie<Vector>, 8>(alloc, limit, blocks) {
        Some(mut machine) => Ok(other_step(&mut machine, steps)),
        None => Err(NoMemory),
    }
}

/// The same of a supervisor at its limits, with so many live blocks.
fn over_crowded_packed(alloc: Global, limit: Need, blocks: u32, steps: &[Step]) -> Went
    requires { IsLimit limit }
{
    match crowded::<Trie<Packed>, 8>(alloc, limit, blocks) {
        Some(mut machine) => Ok(other_step(&mut machine, steps)),
        None => Err(NoMemory),
    }
}

/// The same over tables of a kind.
fn over_crowded(kind: Kind, alloc: Global, limit: Need, blocks: u32, steps: &[Step]) -> Went
    requires { IsLimit limit }
{
    match kind {
        Kind::Segments => over_crowded_segments(alloc, limit, blocks, steps),
        Kind::Multilevel => over_crowded_multilevel(alloc, limit, blocks, steps),
        Kind::Packed => over_crowded_packed(alloc, limit, blocks, steps),
    }
}

/// Execute-read on the first seven words.
const CODE: Span = Span {
    first: 0,
    count: 7,
    perm: Perm::ExecuteRead,
};

/// Read-write on words 1024 to 1027.
const FOUR_WORDS: Span = Span {
    first: 1024,
    count: 4,
    perm: Perm::ReadWrite,
};

/// Read on word 2048.
const SHARED: Span = Span {
    first: 2048,
    count: 1,
    perm: Perm::Read,
};

/// Read on words 2049 and 2050.
const APART: Span = Span {
    first: 2049,
    count: 2,
    perm: Perm::Read,
};

/// A heap area of eight words.
const HEAP: Block = Block {
    first: 1024,
    count: 8,
};

// Domain 1 owns words 1024 to 1027, and word 2048 isn't its own.
static GRANT_REFUSALS: [Step; 9] = [
    Step::Call(3, [0xFFFF_FFFC, 8, 2, 1], 0xFFFF_FFFF),
    Step::Call(3, [0x8000_1000, 0, 2, 1], 0xFFFF_FFFF),
    Step::Call(3, [0x8000_1002, 4, 2, 1], 0xFFFF_FFFF),
    Step::Call(3, [0x8000_1000, 4, 9, 4], 0xFFFF_FFFD),
    Step::Call(3, [0x8000_1000, 4, 2, 4], 0xFFFF_FFFC),
    Step::Call(3, [0x8000_2000, 4, 2, 1], 0xFFFF_FFFE),
    Step::Call(3, [0x8000_1000, 1, 2, 1], 0),
    Step::Right(2, 1024, Perm::Read),
    Step::Right(2, 1025, Perm::None),
];

#[test]
fn grants_are_refused_in_order(rt: HostRuntime) {
    let got = over_each(rt.alloc(), FOUR_WORDS, APART, NO_HEAP, &GRANT_REFUSALS);
    assert_eq!(rt; got, [WELL; 3]);
}

// Domain 1 has seven words of code, and domain 2 has read on word 2048.
static GRANT_WITH_ONE_HART: [Step; 8] = [
    Step::Call(3, [0x8000_0000, 4, 2, 1], 0),
    Step::Right(1, 0, Perm::ExecuteRead),
    Step::Right(1, 6, Perm::ExecuteRead),
    Step::Right(1, 7, Perm::None),
    Step::Right(2, 0, Perm::Read),
    Step::Right(2, 1, Perm::None),
    Step::Right(2, 2048, Perm::Read),
    Step::Right(2, 2049, Perm::None),
];

#[test]
fn a_grant_of_a_hart_alone_takes_effect_at_once(rt: HostRuntime) {
    let got = over_each(rt.alloc(), CODE, SHARED, NO_HEAP, &GRANT_WITH_ONE_HART);
    assert_eq!(rt; got, [WELL; 3]);
}

/// The gate through which domain 2 enters domain 1.
const ENTRY: Gate = Gate {
    domain: 2,
    word: 0,
    target: 1,
};

static EXIT_INSIDE_A_CALL: [Step; 3] = [
    Step::FirstGate(Some(ENTRY)),
    Step::ExitInside([0x8000_0000, 4, 2, 0]),
    Step::Exit([0x8000_0000, 4, 2, 0]),
];

#[test]
fn an_exit_inside_a_call_is_refused(rt: HostRuntime) {
    let got = over_each(rt.alloc(), CODE, SHARED, NO_HEAP, &EXIT_INSIDE_A_CALL);
    assert_eq!(rt; got, [WELL; 3]);
}

/// The block that is made.
const MADE: Block = Block {
    first: 1024,
    count: 2,
};

// The heap area of domain 1 has words 1024 to 1031.
static ALLOC_STORE_FREE: [Step; 14] = [
    Step::HeapArea(HEAP),
    Step::FirstBlock(None),
    Step::Call(6, [2, 0, 0, 0], 0x8000_1000),
    Step::FirstBlock(Some(MADE)),
    Step::Store(1024, 6, true),
    Step::Call(7, [0x8000_1000, 0, 0, 0], 0),
    Step::FirstBlock(None),
    Step::Store(1024, 7, false),
    Step::Word(1024, 6),
    Step::Right(1, 0, Perm::ExecuteRead),
    Step::Right(1, 1024, Perm::None),
    Step::Owner(1024, 1),
    Step::Owner(1031, 1),
    Step::Owner(1032, 0),
];

#[test]
fn a_block_may_be_written_while_it_lives(rt: HostRuntime) {
    let got = over_each(rt.alloc(), CODE, SHARED, HEAP, &ALLOC_STORE_FREE);
    assert_eq!(rt; got, [WELL; 3]);
}

// Each call with each of its codes but that of full tables, and once or more without a refusal, in an order in which
// each finds
// what those before it left.
static CALLS: [Step; 53] = [
    Step::Call(2, [0x8000_1000, 4097, 0, 0], 0xFFFF_FFF5),
    Step::Call(2, [0x7FFF_FFFF, 4, 0, 0], 0xFFFF_FFFF),
    Step::Call(2, [0x8000_100C, 8, 0, 0], 0xFFFF_FFF4),
    Step::Call(2, [0, 0, 0, 0], 0),
    Step::Call(13, [0x8000_1001, 5, 0, 0], 0xFFFF_FFFF),
    Step::Call(13, [0x8000_0000, 5, 0, 0], 0xFFFF_FFF4),
    Step::Exchange([0x8000_1004, 0x0A69_6800, 0, 0], 0),
    Step::Exchange([0x8000_1004, 0x0A69_6800, 0, 0], 0x0A69_6800),
    Step::Word(1025, 0x0A69_6800),
    Step::Call(2, [0x8000_1005, 3, 0, 0], 3),
    Step::Console([b'h', b'i', b'\n']),
    Step::Call(4, [0x8000_1000, 0, 0, 0], 0xFFFF_FFFF),
    Step::Call(4, [0x8000_0FFC, 8, 0, 0], 0xFFFF_FFFE),
    Step::Call(4, [0x8000_1000, 16, 0, 0], 0),
    Step::Call(5, [0x8000_1001, 4, 2, 0], 0xFFFF_FFFF),
    Step::Call(5, [0x8000_2FFC, 4, 2, 0], 0xFFFF_FFFF),
    Step::Call(5, [0x8000_1000, 4, 3, 0], 0xFFFF_FFFD),
    Step::Call(5, [0x8000_1010, 4, 2, 0], 0xFFFF_FFFE),
    Step::Call(5, [0x8000_1004, 4, 2, 0], 0xFFFF_FFF2),
    Step::Call(5, [0x8000_100C, 4, 2, 0], 0),
    Step::Call(3, [0x8000_1008, 8, 2, 1], 0xFFFF_FFFE),
    Step::Call(6, [0, 0, 0, 0], 0xFFFF_FFFF),
    Step::Call(6, [2, 0, 0, 0], 0xFFFF_FFFA),
    Step::Call(6, [1, 0, 0, 0], 0xFFFF_FFF9),
    Step::Call(7, [0x8000_2FF8, 0, 0, 0], 0xFFFF_FFF8),
    Step::Call(7, [0x8000_2FFD, 0, 0, 0], 0xFFFF_FFF8),
    Step::Call(11, [0x8000_2FFC, 2, 0, 0], 1),
    Step::Call(7, [0x8000_2FFC, 0, 0, 0], 0),
    Step::Call(11, [0x8000_2FFC, 2, 0, 0], 0),
    Step::Call(6, [1, 0, 0, 0], 0x8000_2FFC),
    Step::Call(11, [0x8000_2FFC, 1, 0, 0], 2),
    Step::Call(8, [0x8000_1001, 2, 0, 0], 0xFFFF_FFFF),
    Step::Call(8, [0x8000_1000, 3, 0, 0], 0xFFFF_FFFD),
    Step::Call(8, [0x8000_1000, 1, 0, 0], 0xFFFF_FFFD),
    Step::Call(8, [0x8000_1010, 2, 0, 0], 0xFFFF_FFFE),
    Step::Call(8, [0x8000_1000, 2, 0, 0], 0),
    Step::Call(10, [0x8000_1002, 0, 0, 0], 0xFFFF_FFFF),
    Step::Call(10, [0x8000_1010, 0, 0, 0], 0xFFFF_FFFE),
    Step::Call(10, [0x8000_1000, 0, 0, 0], 0xFFFF_FFF7),
    Step::Call(9, [0x8000_1003, 2, 0, 0], 0xFFFF_FFFF),
    Step::Call(9, [0x8000_1000, 0, 0, 0], 0xFFFF_FFFD),
    Step::Call(9, [0x8000_1010, 2, 0, 0], 0xFFFF_FFFE),
    Step::Call(9, [0x8000_1000, 2, 0, 0], 0),
    Step::Call(9, [0x8000_1000, 2, 0, 0], 0xFFFF_FFF1),
    Step::Call(10, [0x8000_1000, 0, 0, 0], 0),
    Step::Call(8, [0x8000_1000, 2, 0, 0], 0xFFFF_FFF7),
    Step::Call(11, [0x8000_1001, 1, 0, 0], 0xFFFF_FFFF),
    Step::Call(11, [0x8000_1000, 3, 0, 0], 0xFFFF_FFFD),
    Step::Call(11, [0x8000_100C, 2, 0, 0], 0xFFFF_FFFE),
    Step::Call(12, [0, 0, 0, 0], 1),
    Step::Call(14, [0, 0, 0, 0], 0xFFFF_FFF3),
    Step::ExitInside([7, 0, 0, 0]),
    Step::Exit([7, 0, 0, 0]),
];

#[test]
fn each_call_answers_by_its_row(rt: HostRuntime) {
    let segments = over_crowded(Kind::Segments, rt.alloc(), AMPLE, 1024, &CALLS);
    let multilevel = over_crowded(Kind::Multilevel, rt.alloc(), AMPLE, 1024, &CALLS);
    let packed = over_crowded(Kind::Packed, rt.alloc(), AMPLE, 1024, &CALLS);
    assert_eq!(rt; [segments, multilevel, packed], [WELL; 3]);
}

/// Just what a trie takes at the start: two root and two mid tables, and a leaf table for the page of domain 1's words.
/// All other
/// pages are even.
const TIGHT: Need = Need {
    upper: 4,
    leaf: 1,
    spill: 0,
};

// The calls that change rights, each where the change would break one more page.
static FULL: [Step; 4] = [
    Step::Call(3, [0x8000_1000, 4, 2, 1], 0xFFFF_FFFB),
    Step::Call(4, [0x8000_3000, 4, 0, 0], 0xFFFF_FFFB),
    Step::Call(6, [1, 0, 0, 0], 0xFFFF_FFFB),
    Step::Call(7, [0x8000_2FFC, 0, 0, 0], 0xFFFF_FFFB),
];

/// One frame of entries for each domain.
const ONE_FRAME_EACH: Need = Need {
    upper: 0,
    leaf: 2,
    spill: 0,
};

// Domain 2's map gets 64 runs, which fill its frame. Then the calls that change rights, each where the change would
// part one more of
// its runs.
static FULL_FRAME: [Step; 5] = [
    Step::Splits(0x8000_8000, 31),
    Step::Call(3, [0x8000_80F8, 4, 2, 0], 0xFFFF_FFFB),
    Step::Call(4, [0x8000_3000, 4, 0, 0], 0xFFFF_FFFB),
    Step::Call(6, [1, 0, 0, 0], 0xFFFF_FFFB),
    Step::Call(7, [0x8000_2FFC, 0, 0, 0], 0xFFFF_FFFB),
];

#[test]
fn full_segments_refuse_changes_of_rights(rt: HostRuntime) {
    let segments = over_crowded(
        Kind::Segments,
        rt.alloc(),
        ONE_FRAME_EACH,
        1023,
        &FULL_FRAME,
    );
    assert_eq!(rt; segments, WELL);
}

#[test]
fn full_tries_refuse_changes_of_rights(rt: HostRuntime) {
    let multilevel = over_crowded(Kind::Multilevel, rt.alloc(), TIGHT, 1023, &FULL);
    let packed = over_crowded(Kind::Packed, rt.alloc(), TIGHT, 1023, &FULL);
    assert_eq!(rt; [multilevel, packed], [WELL; 2]);
}
