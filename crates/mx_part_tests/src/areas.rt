//! Blocks of heaps, and owners of words.
ghost use Rattle.std.specs.Prelude.{◌≡◌, length};

use crate::checks::same;
use mx_heap::{Block, Heap, HeapError};
use mx_owners::{Owners, OwnersFull};
use mx_words::NoMemory;
use std::alloc::Global;
use std::test::Fail;

/// What the calls of a heap answered, each kind in its order.
#[derive(Clone, Copy)]
struct Answers {
    area: (u32, u32),
    allocs: [Result<u32, HeapError>; 5],
    place: Result<u32, HeapError>,
    frees: [Option<u32>; 3],
    blocks: [Option<u32>; 2],
    restored: [bool; 2],
    listed: [Option<Block>; 2],
}

/// In a heap of the words 100 to 109 three pairs are taken, the outer two freed, and a pair is taken again.
fn taken_again(alloc: Global) -> Result<Answers, NoMemory> {
    let mut heap = Heap::new(alloc, 100, 10)?;
    let first = [heap.alloc(2), heap.alloc(2), heap.alloc(2)];
    let freed = [heap.free(100), heap.free(104)];
    let place = heap.place(2);
    let (again, too_many, inner) = (heap.alloc(2), heap.alloc(7), heap.free(101));
    let blocks = [heap.block(102), heap.block(104)];
    let restored = [heap.restore(101, 2), heap.restore(108, 2)];
    Ok(Answers {
        area: heap.area(),
        allocs: [first[0], first[1], first[2], again, too_many],
        place,
        frees: [freed[0], freed[1], inner],
        blocks,
        restored,
        listed: [heap.nth(2), heap.nth(3)],
    })
}

#[test]
fn the_lowest_hole_that_fits_is_taken(rt: HostRuntime) -> Result<(), Fail> {
    let answers = taken_again(rt.alloc())?;
    let last = Block {
        first: 108,
        count: 2,
    };
    let allocs = [Ok(100), Ok(102), Ok(104), Ok(100), Err(HeapError::NoRoom)];
    same(&rt, "area", answers.area, (100, 10));
    same(&rt, "allocs", answers.allocs, allocs);
    same(&rt, "place", answers.place, Ok(100));
    same(&rt, "frees", answers.frees, [Some(2), Some(2), None]);
    same(&rt, "blocks", answers.blocks, [Some(2), None]);
    same(&rt, "restored", answers.restored, [false, true]);
    same(&rt, "listed", answers.listed, [Some(last), None]);
    Ok(())
}

/// Whether 1024 allocs of one word in a heap of so many words from 0 on gave them in order, and what the heap answers
/// then: another such alloc, a free of word 512, and an alloc once more.
fn most_blocks(
    alloc: Global,
    words: u32,
) -> Result<
    (
        bool,
        Result<u32, HeapError>,
        Option<u32>,
        Result<u32, HeapError>,
    ),
    NoMemory,
> {
    let mut heap = Heap::new(alloc, 0, words.min(2048))?;
    let mut in_order = true;
    for first in 0..1024 {
        in_order = in_order & (heap.alloc(1) == Ok(first));
    }
    let refused = heap.alloc(1);
    let freed = heap.free(512);
    Ok((in_order, refused, freed, heap.alloc(1)))
}

#[test]
fn no_more_than_1024_blocks_live(rt: HostRuntime) -> Result<(), Fail> {
    for (words, refusal) in [(1025, HeapError::BlocksFull), (1024, HeapError::NoRoom)] {
        let answers = most_blocks(rt.alloc(), words)?;
        assert_eq!(rt; answers, (true, Err(refusal), Some(1), Ok(512)));
    }
    Ok(())
}

/// What owners answer near and at their limit of runs.
#[derive(Clone, Copy)]
struct Runs {
    are_given: bool,
    before: (u32, u32, u32),
    last: Result<(), OwnersFull>,
    refused: Result<(), OwnersFull>,
    after: (u32, u32, u32),
    owns: (bool, bool, bool),
    joined: Result<(), OwnersFull>,
    longer: (u32, bool),
}

/// Gives domain 1 every second word from 2 to 4094. The answer is whether each was given.
fn give_every_second(owners: &mut Owners) -> bool
    requires { length owners.old ≡ 16384 }
    ensures { length owners.new ≡ 16384 }
{
    let mut are_given = true;
    for pair in 1..2048 {
        are_given = are_given & owners.give(1, 2 * pair, 1).is_ok();
    }
    are_given
}

/// Of 16384 words domain 1 gets every second one from 2 to 4094, then the last one, and then one too many.
fn runs_at_their_limit(alloc: Global) -> Result<Runs, NoMemory> {
    let mut owners = Owners::new(alloc, 16384)?;
    let are_given = give_every_second(&mut owners);
    let before = (owners.owner(4094), owners.owner(4095), owners.run_end(4095));
    let last = owners.give(1, 16383, 1);
    let refused = owners.give(1, 8000, 1);
    let after = (
        owners.owner(8000),
        owners.run_end(4095),
        owners.owner(16383),
    );
    let owns = (
        owners.owns(1, 4094, 1),
        owners.owns(1, 4094, 2),
        owners.owns(0, 4095, 12288),
    );
    let joined = owners.give(1, 3, 1);
    Ok(Runs {
        are_given,
        before,
        last,
        refused,
        after,
        owns,
        joined,
        longer: (owners.run_end(2), owners.owns(1, 2, 3)),
    })
}

#[test]
fn owner_runs_at_their_limit(rt: HostRuntime) -> Result<(), Fail> {
    let runs = runs_at_their_limit(rt.alloc())?;
    assert!(rt; runs.are_given);
    same(&rt, "before", runs.before, (1, 0, 16384));
    same(&rt, "last", runs.last, Ok(()));
    same(&rt, "refused", runs.refused, Err(OwnersFull));
    same(&rt, "after", runs.after, (0, 16383, 1));
    same(&rt, "owns", runs.owns, (true, false, true));
    same(&rt, "joined", runs.joined, Ok(()));
    same(&rt, "longer", runs.longer, (5, true));
    Ok(())
}
