//! Each reader of a machine, over machines made by hand.

use crate::played::{
    Played, code, fault, heard, is_dead, perm, perm_end, play, run_from, start, turn,
};
use crate::small::{Module, Small};
use mx_heap::Block;
use mx_machine::StackArea;
use mx_model::{Events, Frame, Gate, Note};
use mx_words::{Level, Need, Perm, Shown, Span};
use std::alloc::Global;
use std::test::Fail;

/// The number and the argument of an exit with code 5, and its ECALL.
const THREE_WORDS: [u32; 3] = [0x0010_0893, 0x0050_0513, 0x0000_0073];

/// A machine of one hart and one module after ten turns, of which the first three ran the three words.
fn three_words(alloc: Global) -> Result<Played, Fail> {
    let starts = [start(1, 0x8000_0000)];
    play(alloc, &[code(0, &THREE_WORDS)], &[], &starts, 10)
}

/// The harts, the modules and the words of a machine.
fn sizes(machine: &Small) -> (u32, u32, u32) {
    (machine.harts(), machine.modules(), machine.words())
}

/// The turns of a machine, whether all its harts are halted, and what its tables take.
fn progress(machine: &Small) -> (u64, bool, Need) {
    (machine.steps(), machine.all_halted(), machine.used())
}

/// How large the machine of three words is, and how far.
fn size_of_three_words(alloc: Global) -> Result<((u32, u32, u32), (u64, bool, Need)), Fail> {
    let played = three_words(alloc)?;
    let told = (sizes(&played.machine), progress(&played.machine));
    played.end();
    Ok(told)
}

#[test]
fn the_readers_tell_how_large_a_machine_is_and_how_far(rt: HostRuntime) -> Result<(), Fail> {
    let (sizes, progress) = size_of_three_words(rt.alloc())?;
    let used = Need {
        upper: 2,
        leaf: 1,
        spill: 0,
    };
    assert_eq!(rt; sizes, (1, 1, 16384));
    assert_eq!(rt; progress, (10, true, used));
    Ok(())
}

/// The span of domain 1 round word 0 and how the tables store it, where there are both.
fn first_span(machine: &Small) -> Option<(Span, Shown)> {
    if 0 < machine.modules() && 0 < machine.words() {
        Some((machine.span(1, 0), machine.shown(1, 0)))
    } else {
        None
    }
}

/// The first span of the machine of three words, and the permissions on its words 2 and 3.
fn permissions_of_three_words(
    alloc: Global,
) -> Result<(Option<(Span, Shown)>, [Option<Perm>; 2]), Fail> {
    let played = three_words(alloc)?;
    let machine = &played.machine;
    let told = (
        first_span(machine),
        [perm(machine, 1, 2), perm(machine, 1, 3)],
    );
    played.end();
    Ok(told)
}

#[test]
fn the_readers_tell_permissions(rt: HostRuntime) -> Result<(), Fail> {
    let (first, perms) = permissions_of_three_words(rt.alloc())?;
    let span = Span {
        first: 0,
        count: 3,
        perm: Perm::ExecuteRead,
    };
    let shown = Shown {
        level: Level::Leaf,
        first: 0,
        count: 16,
        stored: 0x07C0_0C0E,
    };
    assert_eq!(rt; first, Some((span, shown)));
    assert_eq!(rt; perms, [Some(Perm::ExecuteRead), Some(Perm::None)]);
    Ok(())
}

/// The first 8 bytes of RAM, and how many of them the reader gives, where there are so many.
fn first_bytes(machine: &Small) -> Option<(usize, [u8; 8])> {
    if machine.words() < 2 {
        return None;
    }
    let told = machine.bytes(0, 8);
    let mut bytes = [0; 8];
    for i in 0..8 {
        if i < told.len() {
            bytes[i] = told[i];
        }
    }
    Some((told.len(), bytes))
}

/// Byte 1 of RAM, where it is there.
fn second_byte(machine: &Small) -> Option<u8> {
    if 0 < machine.words() {
        Some(machine.byte(1))
    } else {
        None
    }
}

/// What is read of the words and bytes of a machine: the runs of words with one owner, its first bytes, and one byte.
#[derive(Clone, Copy)]
struct Words {
    runs: [Option<(u32, u32)>; 2],
    bytes: Option<(usize, [u8; 8])>,
    byte: Option<u8>,
}

/// The words and bytes of the machine of three words.
fn words_of_three_words(alloc: Global) -> Result<Words, Fail> {
    let played = three_words(alloc)?;
    let machine = &played.machine;
    let words = Words {
        runs: [run_from(machine, 0), run_from(machine, 3)],
        bytes: first_bytes(machine),
        byte: second_byte(machine),
    };
    played.end();
    Ok(words)
}

#[test]
fn the_readers_tell_owners_and_bytes(rt: HostRuntime) -> Result<(), Fail> {
    let words = words_of_three_words(rt.alloc())?;
    let bytes = [0x93, 0x08, 0x10, 0x00, 0x13, 0x05, 0x50, 0x00];
    assert_eq!(rt; words.runs, [Some((1, 3)), Some((0, 16384))]);
    assert_eq!(rt; words.bytes, Some((8, bytes)));
    assert_eq!(rt; words.byte, Some(0x08));
    Ok(())
}

/// The counts of hart 0: the checks that a place, the lookaside buffer and a walk answered. `None` without a hart.
fn counts(machine: &Small) -> Option<(u64, u64, u64)> {
    if 0 < machine.harts() {
        let counts = machine.counts(0);
        Some((counts.sidecar, counts.lookaside, counts.walks))
    } else {
        None
    }
}

/// The first gate of a machine, and the outermost frame of hart 0, where there is a hart.
fn gate_and_frame(machine: &Small) -> Option<(Option<Gate>, Option<Frame>)> {
    if 0 < machine.harts() {
        Some((machine.gate(0), machine.frame(0, 0)))
    } else {
        None
    }
}

/// What is read of a machine without heap areas, gates, frames and waiting calls.
#[derive(Clone, Copy)]
struct BareReadings {
    counts: Option<(u64, u64, u64)>,
    blocks: Option<(Block, Option<Block>, Option<Block>)>,
    gate_and_frame: Option<(Option<Gate>, Option<Frame>)>,
    heard: Option<bool>,
}

/// The counts of the machine of three words, and what isn't there.
fn bare_three_words(alloc: Global) -> Result<BareReadings, Fail> {
    let played = three_words(alloc)?;
    let machine = &played.machine;
    let bare = BareReadings {
        counts: counts(machine),
        blocks: blocks(machine),
        gate_and_frame: gate_and_frame(machine),
        heard: heard(machine, 0, 0),
    };
    played.end();
    Ok(bare)
}

#[test]
fn the_readers_tell_counts_and_what_is_not_there(rt: HostRuntime) -> Result<(), Fail> {
    let bare = bare_three_words(rt.alloc())?;
    assert_eq!(rt; bare.counts, Some((2, 0, 1)));
    assert_eq!(rt;
        bare.blocks,
        Some((Block { first: 0, count: 0 }, None, None))
    );
    assert_eq!(rt; bare.gate_and_frame, Some((None, None)));
    assert_eq!(rt; bare.heard, Some(false));
    Ok(())
}

/// A stack area of 4 words.
const STACK: StackArea = StackArea {
    first: 2048,
    words: 4,
    kills: false,
};

/// No stack area, in a module that a fault kills.
const KILLS: StackArea = StackArea {
    first: 0,
    words: 0,
    kills: true,
};

/// The gate of the call.
const GATE: Gate = Gate {
    domain: 1,
    word: 1024,
    target: 2,
};

/// A machine whose hart has called from domain 1 into domain 2.
fn inside_a_call(alloc: Global) -> Result<Played, Fail> {
    let modules = [
        Module {
            stack: STACK,
            ..code(0, &[0x8000_12B7, 0x0002_80E7, 0x0010_0073])
        },
        Module {
            stack: KILLS,
            ..code(1024, &[0x0010_0073])
        },
    ];
    play(alloc, &modules, &[GATE], &[start(1, 0x8000_0000)], 3)
}

/// The first two gates of a machine, and the first two frames of hart 0, where there is a hart.
#[derive(Clone, Copy)]
struct Crossings {
    gates: [Option<Gate>; 2],
    frames: Option<[Option<Frame>; 2]>,
}

/// The first two frames of hart 0, where there is a hart.
fn frames(machine: &Small) -> Option<[Option<Frame>; 2]> {
    if 0 < machine.harts() {
        Some([machine.frame(0, 0), machine.frame(0, 1)])
    } else {
        None
    }
}

/// The gates and the frames of a machine inside a call.
fn crossings_inside_a_call(alloc: Global) -> Result<Crossings, Fail> {
    let played = inside_a_call(alloc)?;
    let machine = &played.machine;
    let crossings = Crossings {
        gates: [machine.gate(0), machine.gate(1)],
        frames: frames(machine),
    };
    played.end();
    Ok(crossings)
}

/// Where runs of permission end in a machine inside a call, by domain and word: three words of code, the words up to
/// the stack area, a word
/// inside it, the words up to RAM's end; and in domain 2 the words up to its one word, and that word.
const ENDS: [(u32, u32, u32); 7] = [
    (1, 0, 3),
    (1, 3, 2048),
    (1, 1030, 2048),
    (1, 2050, 2052),
    (1, 2052, 16384),
    (2, 0, 1024),
    (2, 1024, 1025),
];

/// The first of these runs that the machine tells otherwise.
fn wrong_end(machine: &Small) -> Option<(u32, u32, u32)> {
    for run in ENDS {
        let (domain, word, end) = run;
        if perm_end(machine, domain, word) != Some(end) {
            return Some(run);
        }
    }
    None
}

/// The same in a machine inside a call.
fn wrong_end_inside_a_call(alloc: Global) -> Result<Option<(u32, u32, u32)>, Fail> {
    let played = inside_a_call(alloc)?;
    let wrong = wrong_end(&played.machine);
    played.end();
    Ok(wrong)
}

#[test]
fn the_readers_tell_where_permissions_end(rt: HostRuntime) -> Result<(), Fail> {
    assert_eq!(rt; wrong_end_inside_a_call(rt.alloc())?, None);
    Ok(())
}

#[test]
fn the_readers_tell_gates_and_frames(rt: HostRuntime) -> Result<(), Fail> {
    let crossings = crossings_inside_a_call(rt.alloc())?;
    let mut kept = [0; 15];
    kept[0] = 0x8000_2010;
    let frame = Frame {
        back: 0x8000_0008,
        caller: 1,
        kept,
    };
    assert_eq!(rt; crossings.gates, [Some(GATE), None]);
    assert_eq!(rt; crossings.frames, Some([Some(frame), None]));
    Ok(())
}

/// The stack areas of the first two domains, and whether each is killing, where there are both.
fn stacks(machine: &Small) -> Option<[(StackArea, bool); 2]> {
    if machine.modules() < 2 {
        return None;
    }
    let first = (machine.stack_area(1), machine.kills(1));
    let second = (machine.stack_area(2), machine.kills(2));
    Some([first, second])
}

/// The stack areas of a machine inside a call.
fn stacks_inside_a_call(alloc: Global) -> Result<Option<[(StackArea, bool); 2]>, Fail> {
    let played = inside_a_call(alloc)?;
    let stacks = stacks(&played.machine);
    played.end();
    Ok(stacks)
}

#[test]
fn the_readers_tell_stack_areas_and_who_kills(rt: HostRuntime) -> Result<(), Fail> {
    let stacks = stacks_inside_a_call(rt.alloc())?;
    assert_eq!(rt; stacks, Some([(STACK, false), (KILLS, true)]));
    Ok(())
}

/// What a turn told, and whether domain 2 was dead before it and after it.
#[derive(Clone, Copy)]
struct Killing {
    before: Option<bool>,
    note: Option<Note>,
    after: Option<bool>,
}

/// Makes a turn of hart 0.
fn kill(machine: &mut Small) -> Killing {
    let before = is_dead(machine, 2);
    let mut out = Events::new();
    turn(machine, 0, &mut out);
    Killing {
        before,
        note: out.note(),
        after: is_dead(machine, 2),
    }
}

/// Makes the turn of a machine inside a call in which its second module faults.
fn kill_inside_a_call(alloc: Global) -> Result<Killing, Fail> {
    let mut played = inside_a_call(alloc)?;
    let killing = kill(&mut played.machine);
    played.end();
    Ok(killing)
}

#[test]
fn the_readers_tell_which_module_is_dead(rt: HostRuntime) -> Result<(), Fail> {
    let killing = kill_inside_a_call(rt.alloc())?;
    let note = fault(4, 0, 2, 0x8000_1000, 3, 0x8000_1000);
    assert_eq!(rt; (killing.before, killing.after), (Some(false), Some(true)));
    assert_eq!(rt; killing.note, Some(note));
    Ok(())
}

/// What the readers tell of the blocks and the heap area of domain 1, where there is one.
fn blocks(machine: &Small) -> Option<(Block, Option<Block>, Option<Block>)> {
    if 0 < machine.modules() {
        let area = machine.heap_area(1);
        Some((area, machine.block(1, 0), machine.block(1, 1)))
    } else {
        None
    }
}

/// A heap area of 64 words.
const HEAP: Block = Block {
    first: 4096,
    count: 64,
};

/// The blocks of a machine whose module has allocated three words.
fn blocks_after_an_alloc(
    alloc: Global,
) -> Result<Option<(Block, Option<Block>, Option<Block>)>, Fail> {
    let module = Module {
        heap: HEAP,
        ..code(0, &[0x0030_0513, 0x0060_0893, 0x0000_0073, 0x0010_0073])
    };
    let played = play(alloc, &[module], &[], &[start(1, 0x8000_0000)], 4)?;
    let blocks = blocks(&played.machine);
    played.end();
    Ok(blocks)
}

#[test]
fn the_readers_tell_blocks_and_heap_areas(rt: HostRuntime) -> Result<(), Fail> {
    let blocks = blocks_after_an_alloc(rt.alloc())?;
    let block = Block {
        first: 4096,
        count: 3,
    };
    assert_eq!(rt; blocks, Some((HEAP, Some(block), None)));
    Ok(())
}
