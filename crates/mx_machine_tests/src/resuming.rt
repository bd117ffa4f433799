//! Who has heard a waiting call, and a machine that goes on beside one that was not stopped.

use crate::played::{Played, code, hart, heard, let_go, perm, play, start, turn};
use crate::small::{Left, Module, Small, resumed};
use mx_machine::{HartStatus, StackArea};
use mx_model::Events;
use mx_words::Perm;
use std::alloc::Global;
use std::test::Fail;

/// Hart 0 grants the first word of its stack area to domain 2 for reading, hart 1 faults after that call, and hart 2
/// counts in x5
/// without end.
const GRANTS: [u32; 9] = [
    0x8000_1537,
    0x0040_0593,
    0x0020_0613,
    0x0010_0693,
    0x0030_0893,
    0x0000_0073,
    0x0010_0073,
    0x0012_8293,
    0xFFDF_F06F,
];

/// A hart as a machine would tell it, to go on.
fn left(machine: &Small, number: u32) -> Option<Left> {
    let view = hart(machine, number)?;
    let regs = view.regs;
    Some(Left {
        status: view.status,
        domain: view.domain,
        pc: view.pc,
        regs,
    })
}

/// A machine with the harts, the turns and the memory of another in which nothing was changed but harts.
fn again(alloc: Global, modules: &[Module], machine: &Small) -> Option<Small> {
    let waiting = left(machine, 0)?;
    let halted = left(machine, 1)?;
    let running = left(machine, 2)?;
    resumed(alloc, modules, &waiting, &halted, &running, machine.steps())
}

/// A machine of three harts after ten turns: hart 0 waits on its grant, hart 1 is halted, and hart 2 runs.
fn stopped(alloc: Global, modules: &[Module]) -> Result<Played, Fail> {
    let starts = [
        start(1, 0x8000_0000),
        start(1, 0x8000_0018),
        start(1, 0x8000_001C),
    ];
    let mut played = play(alloc, modules, &[], &starts, 0)?;
    let done = played.turns_of(&[1, 2, 2, 0, 0, 0, 0, 0, 2, 0]);
    played.after(done)
}

/// The status of a hart, where there is one.
fn status(machine: &Small, number: u32) -> Option<HartStatus> {
    let view = hart(machine, number)?;
    Some(view.status)
}

/// Whether the harts, the granted permission and the waiting call of two machines stand alike.
fn stand_alike(one: &Small, other: &Small) -> bool {
    for number in 0..3 {
        if hart(one, number) != hart(other, number) {
            return false;
        }
    }
    perm(one, 2, 1024) == perm(other, 2, 1024) && heard(one, 0, 2) == heard(other, 0, 2)
}

/// Makes a turn of a hart on two machines. Whether both told the same, and stand alike.
fn go_alike(one: &mut Small, other: &mut Small, number: u32) -> bool {
    let mut out = Events::new();
    let mut told = Events::new();
    let kind = turn(one, number, &mut out);
    if turn(other, number, &mut told) != kind || told.note() != out.note() {
        return false;
    }
    stand_alike(one, other)
}

/// The modules of three harts: one with their code and stack areas, and one that is granted a word.
fn granting() -> [Module<'static>; 2] {
    let stack = StackArea {
        first: 1024,
        words: 4,
        kills: false,
    };
    [
        Module {
            stack,
            ..code(0, &GRANTS)
        },
        code(2048, &[0]),
    ]
}

/// Whether hart 2 has heard the waiting call of hart 0 before its turn and after it, and hart 0 one of hart 2.
fn hear(machine: &mut Small) -> [Option<bool>; 3] {
    let before = heard(machine, 0, 2);
    let mut out = Events::new();
    turn(machine, 2, &mut out);
    [before, heard(machine, 0, 2), heard(machine, 2, 0)]
}

/// Makes the turn of a machine left after ten turns in which hart 2 hears the call of hart 0.
fn hear_a_call(alloc: Global) -> Result<[Option<bool>; 3], Fail> {
    let modules = granting();
    let mut played = stopped(alloc, &modules)?;
    let told = hear(&mut played.machine);
    played.end();
    Ok(told)
}

#[test]
fn the_readers_tell_who_has_heard_a_call(rt: HostRuntime) -> Result<(), Fail> {
    let heard = hear_a_call(rt.alloc())?;
    assert_eq!(rt; heard, [Some(false), Some(true), Some(false)]);
    Ok(())
}

/// The harts whose turns are made when a machine goes on.
const TURNS: [u32; 8] = [0, 1, 2, 1, 0, 0, 2, 0];

/// How a machine that was left went on: its harts as it began, after which turns it was like the one that was not left,
/// and its turns
/// and the granted permission at the end.
#[derive(Clone, Copy)]
struct GoneOn {
    began: [Option<HartStatus>; 3],
    alike: [bool; 8],
    steps: u64,
    granted: Option<Perm>,
}

/// Makes the same turns on two machines.
fn go_on(one: &mut Small, other: &mut Small) -> GoneOn {
    let began = [status(other, 0), status(other, 1), status(other, 2)];
    let mut alike = [false; 8];
    for i in 0..8 {
        alike[i] = go_alike(one, other, TURNS[i]);
    }
    GoneOn {
        began,
        alike,
        steps: other.steps(),
        granted: perm(other, 2, 1024),
    }
}

/// A machine as it was left, gone on beside the one that was not.
fn resume_beside(alloc: Global, modules: &[Module], one: &mut Small) -> Option<GoneOn> {
    match again(alloc, modules, one) {
        Some(mut other) => {
            let gone = go_on(one, &mut other);
            let_go(other);
            Some(gone)
        }
        None => None,
    }
}

/// A machine left after ten turns, gone on beside the one that was not.
fn leave_and_go_on(alloc: Global) -> Result<Option<GoneOn>, Fail> {
    let modules = granting();
    let mut played = stopped(alloc, &modules)?;
    let gone = resume_beside(alloc, &modules, &mut played.machine);
    played.end();
    Ok(gone)
}

#[test]
fn a_machine_that_was_left_goes_on_as_one_that_was_not(rt: HostRuntime) -> Result<(), Fail> {
    let Some(gone) = leave_and_go_on(rt.alloc())? else {
        return Err("no machine")?;
    };
    let began = [
        Some(HartStatus::Waiting),
        Some(HartStatus::Halted),
        Some(HartStatus::Running),
    ];
    assert_eq!(rt; gone.began, began);
    assert_eq!(rt; gone.alike, [true; 8]);
    assert_eq!(rt; (gone.steps, gone.granted), (18, Some(Perm::Read)));
    Ok(())
}
