//! The lines of turns.
ghost use Rattle.std.specs.Prelude.{IfSome};
ghost use Rattle.mx_isa.specs.Ranges.{IsValid};
ghost use Rattle.mx_trace.specs.Lines.{seen_inst};

use crate::checks::{Text, same, text};
use mx_io::{Bytes, Failed};
use mx_isa::{Inst, decode};
use mx_model::TurnKind;
use mx_tail::Tail;
use mx_trace::{Seen, kind_name, put_turn, turn_line};
use std::alloc::Global;
use std::process::Abort;
use std::test::Fail;

/// A hart in a domain, with the word at its pc; None where no text of it is shown.
type Stands = Option<(u32, u32, Option<u32>)>;

/// Step, hart, how it stands before the turn, the turn's kind, and the line that the rule gives.
static LINES: [(u64, u32, Stands, TurnKind, &str); 10] = [
    (
        1,
        0,
        Some((1, 0x8000_0000, Some(0x0010_0893))),
        TurnKind::Ran,
        "turn 1 0 1 0x80000000 ran addi x17, x0, 1\n",
    ),
    (
        3,
        0,
        Some((1, 0x8000_0008, Some(0x0000_0073))),
        TurnKind::Called,
        "turn 3 0 1 0x80000008 called ecall\n",
    ),
    (1, 1, None, TurnKind::Idle, "turn 1 1 - - idle -\n"),
    (
        2,
        0,
        Some((1, 0x8000_0004, Some(0x0000_A023))),
        TurnKind::Trapped,
        "turn 2 0 1 0x80000004 trapped sw x0, 0(x1)\n",
    ),
    (
        90,
        3,
        Some((2, 0x8000_1034, None)),
        TurnKind::Idle,
        "turn 90 3 2 0x80001034 idle -\n",
    ),
    (
        41,
        2,
        Some((7, 0x8000_0ABC, Some(0x0000_0073))),
        TurnKind::Waited,
        "turn 41 2 7 0x80000abc waited ecall\n",
    ),
    (
        42,
        2,
        Some((7, 0x8000_0ABC, None)),
        TurnKind::Trapped,
        "turn 42 2 7 0x80000abc trapped -\n",
    ),
    (
        5,
        15,
        Some((63, 0x83FF_FFFC, Some(0xFFDF_F0EF))),
        TurnKind::Crossed,
        "turn 5 15 63 0x83fffffc crossed jal x1, -4\n",
    ),
    (
        6,
        0,
        Some((3, 0x8000_2000, Some(0x0000_8067))),
        TurnKind::Returned,
        "turn 6 0 3 0x80002000 returned jalr x0, 0(x1)\n",
    ),
    (
        18446744073709551615,
        4294967295,
        Some((0, 0, Some(0x0000_0097))),
        TurnKind::Ran,
        "turn 18446744073709551615 4294967295 0 0x00000000 ran auipc x1, 0\n",
    ),
];

/// The instruction of a word.
fn inst_of(word: Option<u32>) -> Option<Inst>
    ensures { IfSome result IsValid }
{
    match word {
        Some(word) => decode(word),
        None => None,
    }
}

/// What is seen of such a hart.
fn seen(stands: Stands) -> Option<Seen>
    ensures { IfSome (seen_inst result) IsValid }
{
    match stands {
        Some((domain, pc, word)) => Some(Seen {
            domain,
            pc,
            inst: inst_of(word),
        }),
        None => None,
    }
}

/// What the line of a turn comes to with so much room, and what stands there then.
fn line_of(
    alloc: Global,
    room: u64,
    step: u64,
    hart: u32,
    before: Option<Seen>,
    kind: TurnKind,
) -> Option<(Result<(), Failed>, Text)>
    requires { IfSome (seen_inst before) IsValid }
{
    let mut sink = Bytes::new(alloc, room).ok()?;
    let put = turn_line(&mut sink, step, hart, before, kind);
    Some((put, text(sink.as_slice())))
}

#[test]
fn turn_lines_are_those_of_the_rule(rt: HostRuntime) {
    for (step, hart, stands, kind, line) in &LINES {
        let got = line_of(rt.alloc(), 80, *step, *hart, seen(*stands), *kind);
        same(&rt, line, got, Some((Ok(()), text(line.as_bytes()))));
    }
}

/// Two idle turns are put and nothing is written; then the tail ends.
fn put_two_turns(rt: &impl Abort, tail: &mut Tail, sink: &mut Bytes) {
    for step in 1..3 {
        let put = put_turn(tail, sink, step, 1, None, TurnKind::Idle);
        same(rt, "the put", put, Ok(()));
        same(rt, "bytes so far", sink.as_slice().len(), 0);
    }
    same(rt, "the end", tail.end(sink), Ok(()));
    let lines = b"turn 1 1 - - idle -\nturn 2 1 - - idle -\n";
    same(rt, "the lines", sink.as_slice(), lines.as_slice());
}

#[test]
fn turn_lines_leave_together(rt: HostRuntime) -> Result<(), Fail> {
    let mut sink = Bytes::new(rt.alloc(), 80)?;
    let mut tail = Tail::new();
    put_two_turns(&rt, &mut tail, &mut sink);
    Ok(())
}

#[test]
fn a_turn_line_without_room_is_a_prefix(rt: HostRuntime) {
    let before = seen(Some((1, 0x8000_0000, Some(0x0010_0893))));
    let got = line_of(rt.alloc(), 28, 1, 0, before, TurnKind::Ran);
    let line = text(b"turn 1 0 1 0x80000000 ran ad");
    same(&rt, "28 bytes", got, Some((Err(Failed), line)));
}

/// Kinds with their names.
static KINDS: [(TurnKind, &str); 7] = [
    (TurnKind::Idle, "idle"),
    (TurnKind::Waited, "waited"),
    (TurnKind::Ran, "ran"),
    (TurnKind::Crossed, "crossed"),
    (TurnKind::Returned, "returned"),
    (TurnKind::Trapped, "trapped"),
    (TurnKind::Called, "called"),
];

#[test]
fn kinds_have_their_names(rt: HostRuntime) {
    for (kind, name) in &KINDS {
        same(&rt, name, kind_name(*kind), name);
    }
}
