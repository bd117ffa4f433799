//! Gates, and the frames of a hart.
use crate::checks::same;
use mx_gates::{CrossStack, Full, Gates, GatesFull};
use mx_model::{Frame, Gate};
use std::process::Abort;

fn gate(domain: u32, word: u32, target: u32) -> Gate {
    Gate {
        domain,
        word,
        target,
    }
}

/// What gates answer that are as many as there may be.
#[derive(Clone, Copy)]
struct Most {
    before: Option<Gate>,
    are_added: bool,
    refused: [Result<(), GatesFull>; 2],
    first: Option<Gate>,
    replaced: Result<(), GatesFull>,
    listed: [Option<Gate>; 3],
}

/// Adds gates of domain 1 at words 0 to 255, in turn return gates and gates into domain 2, then two too many, and then
/// another one at word 7.
fn add_most(gates: &mut Gates) -> Most {
    let before = gates.get(0);
    let mut are_added = true;
    for word in 0..256 {
        are_added = are_added & gates.add(gate(1, word, 1 + word % 2)).is_ok();
    }
    let refused = [gates.add(gate(1, 256, 2)), gates.add(gate(2, 7, 1))];
    let first = gates.get(7);
    let replaced = gates.add(gate(1, 7, 3));
    Most {
        before,
        are_added,
        refused,
        first,
        replaced,
        listed: [gates.get(7), gates.get(255), gates.get(256)],
    }
}

/// What gates answer of which one is removed.
#[derive(Clone, Copy)]
struct Fewer {
    removed: [bool; 2],
    targets: [Option<u32>; 2],
    listed: [Option<Gate>; 2],
}

/// Removes the gate of domain 1 at word 7 twice.
fn remove_twice(gates: &mut Gates) -> Fewer {
    let removed = [gates.remove(1, 7), gates.remove(1, 7)];
    Fewer {
        removed,
        targets: [gates.target(1, 7), gates.target(1, 6)],
        listed: [gates.get(254), gates.get(255)],
    }
}

/// Compares what gates tell of a domain and a word: the target of a call gate, and whether a return gate stands there.
fn gates_tell(rt: &impl Abort, gates: &Gates, rows: &[(u32, u32, Option<u32>, bool)]) {
    for (domain, word, target, back) in rows {
        let either = if *back { Some(*domain) } else { *target };
        let told = (
            gates.call_gate(*domain, *word),
            gates.is_return(*domain, *word),
            gates.target(*domain, *word),
        );
        assert_eq!(rt;
            told,
            (*target, *back, either),
            "domain {domain}, word {word}"
        );
    }
}

/// What gates answer at their limit and with one removed.
fn at_their_limit(rt: &impl Abort) -> (Most, Fewer) {
    let mut gates = Gates::new();
    let most = add_most(&mut gates);
    let rows = [
        (1, 7, Some(3), false),
        (1, 8, None, true),
        (1, 9, Some(2), false),
        (2, 9, None, false),
        (1, 1033, None, false),
    ];
    gates_tell(rt, &gates, &rows);
    (most, remove_twice(&mut gates))
}

/// With 256 gates a new place is refused, and a place with a gate gets the new one at the list's end.
#[test]
fn gates_at_their_limit(rt: HostRuntime) {
    let (most, fewer) = at_their_limit(&rt);
    same(&rt, "before", most.before, None);
    assert!(rt; most.are_added);
    same(
        &rt,
        "refused",
        most.refused,
        [Err(GatesFull), Err(GatesFull)],
    );
    same(&rt, "first", most.first, Some(gate(1, 7, 2)));
    same(&rt, "replaced", most.replaced, Ok(()));
    same(
        &rt,
        "listed",
        most.listed,
        [Some(gate(1, 8, 1)), Some(gate(1, 7, 3)), None],
    );
    same(&rt, "removed", fewer.removed, [true, false]);
    same(&rt, "targets", fewer.targets, [None, Some(1)]);
    same(
        &rt,
        "listed then",
        fewer.listed,
        [Some(gate(1, 255, 2)), None],
    );
}

fn frame(caller: u32, x2: u32) -> Frame {
    let mut kept = [0; 15];
    kept[0] = x2;
    Frame {
        back: 0x8000_0010,
        caller,
        kept,
    }
}

/// What a stack of frames answers: while it is empty, when it is full, and with one frame less.
#[derive(Clone, Copy)]
struct Stacked {
    empty: [Option<Frame>; 2],
    are_pushed: bool,
    refused: Result<(), Full>,
    depths: [u32; 2],
    nearest: [Option<u32>; 3],
    frames: [Option<Frame>; 2],
    tops: [Option<Frame>; 2],
}

/// Pushes 64 frames, of domains 1 and 2 in turn, and then one too many, and pops one.
fn fill_and_pop() -> Stacked {
    let mut stack = CrossStack::new();
    let empty = [stack.top(), stack.pop()];
    let mut are_pushed = true;
    for i in 0..64 {
        are_pushed = are_pushed & stack.push(frame(1 + i % 2, i)).is_ok();
    }
    let refused = stack.push(frame(3, 64));
    let depth = stack.depth();
    let nearest = [stack.nearest(1), stack.nearest(3)];
    let frames = [stack.frame(0), stack.frame(64)];
    let tops = [stack.top(), stack.pop()];
    Stacked {
        empty,
        are_pushed,
        refused,
        depths: [depth, stack.depth()],
        nearest: [nearest[0], nearest[1], stack.nearest(2)],
        frames,
        tops,
    }
}

#[test]
fn frames_come_back_from_the_top(rt: HostRuntime) {
    let stacked = fill_and_pop();
    let last = Some(frame(2, 63));
    same(&rt, "empty", stacked.empty, [None, None]);
    assert!(rt; stacked.are_pushed);
    same(&rt, "refused", stacked.refused, Err(Full));
    same(&rt, "depths", stacked.depths, [64, 63]);
    same(&rt, "nearest", stacked.nearest, [Some(62), None, Some(61)]);
    same(&rt, "frames", stacked.frames, [Some(frame(1, 0)), None]);
    same(&rt, "tops", stacked.tops, [last, last]);
}
