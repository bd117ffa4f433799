//! A turn of a hart in two machines. Expected values are written by hand from the rules.

use crate::machines::{KINDS, pair, step};
use mx_any::AnyMachine;
use mx_model::{Events, Fault, Note, TurnKind};
use std::alloc::Global;
use std::test::Fail;

/// A module up to the number of bytes that it writes to the console, its own first ones.
const HEAD: &str = "[[module]]
name = \"m\"
at = 0x80000000
perm = \"rx\"
words = [0x80000537, ";

/// Four bytes and three: `addi a1, zero, 4` or `3`, `addi a7, zero, 2`, `ecall`, and then EBREAK or a jump to itself.
const FOUR: &str = "0x00400593, 0x00200893, 0x00000073, 0x00100073";

const THREE: &str = "0x00300593, 0x00200893, 0x00000073, 0x0000006F";

const TAIL: &str = "]
[[hart]]
module = \"m\"
";

/// What a turn told: how many bytes, the first four of them, and its note.
type Told = (u32, [u8; 4], Option<Note>);

/// A turn in both: its kinds, and what it told in each.
type Made = (Option<(TurnKind, TurnKind)>, Told, Told);

fn told(out: &Events) -> Told {
    let mut bytes = [0; 4];
    for i in 0..4 {
        if i < out.len() {
            bytes[i as usize] = out.byte(i);
        }
    }
    (out.len(), bytes, out.note())
}

fn made(
    a: &mut AnyMachine,
    b: &mut AnyMachine,
    hart: u32,
    left: &mut Events,
    right: &mut Events,
) -> Made {
    let kinds = step(a, b, hart, left, right);
    (kinds, told(left), told(right))
}

/// The harts that make turns one after another: the one that there is, and one that there isn't.
const HARTS: [u32; 7] = [0, 0, 0, 0, 7, 0, 0];

/// These turns of the machines of two texts.
fn all_made(alloc: Global, first: &str, second: &str) -> Option<Vec<Made>> {
    let (mut a, mut b) = pair(alloc, first, second)?;
    let mut turns = Vec::new(alloc);
    let mut left = Events::new();
    let mut right = Events::new();
    for hart in HARTS {
        let turn = made(&mut a, &mut b, hart, &mut left, &mut right);
        let _ = turns.push(turn);
    }
    a.end();
    b.end();
    Some(turns)
}

const NOTHING: Told = (0, [0; 4], None);

/// The first word is 0x80000537 in both.
static WANTED: [Made; 7] = [
    (Some((TurnKind::Ran, TurnKind::Ran)), NOTHING, NOTHING),
    (Some((TurnKind::Ran, TurnKind::Ran)), NOTHING, NOTHING),
    (Some((TurnKind::Ran, TurnKind::Ran)), NOTHING, NOTHING),
    (
        Some((TurnKind::Called, TurnKind::Called)),
        (4, [0x37, 0x05, 0x00, 0x80], None),
        (3, [0x37, 0x05, 0x00, 0], None),
    ),
    (Some((TurnKind::Idle, TurnKind::Idle)), NOTHING, NOTHING),
    (
        Some((TurnKind::Trapped, TurnKind::Ran)),
        (
            0,
            [0; 4],
            Some(Note::Fault {
                step: 6,
                hart: 0,
                domain: 1,
                pc: 0x8000_0010,
                fault: Fault {
                    cause: 3,
                    value: 0x8000_0010,
                },
            }),
        ),
        NOTHING,
    ),
    (Some((TurnKind::Idle, TurnKind::Ran)), NOTHING, NOTHING),
];

#[test]
fn a_turn_in_both_tells_what_it_was_in_each(rt: HostRuntime) -> Result<(), Fail> {
    for (kind, other) in &KINDS {
        let first = format!(in rt.alloc(); "{kind}{HEAD}{FOUR}{TAIL}")?;
        let second = format!(in rt.alloc(); "{other}{HEAD}{THREE}{TAIL}")?;
        let Some(turns) = all_made(rt.alloc(), first.as_str(), second.as_str()) else {
            return Err("no machines")?;
        };
        assert_eq!(rt; turns.as_slice(), WANTED.as_slice(), "{first}{second}");
    }
    Ok(())
}
