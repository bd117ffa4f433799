//! The line of a turn.
ghost use Rattle.std.specs.Prelude.{◌≡◌, ◌+◌, ◌<◌, ◌≤◌, ◌++◌, length, IfSome};
ghost use Rattle.mx_isa.specs.Ranges.{IsValid};
ghost use Rattle.mx_io.specs.Sink.{Puts};
ghost use Rattle.mx_tail.specs.Tail.{Passes, piece_bytes};
ghost use Rattle.mx_trace.specs.Lines.{kind_name, place_text, seen_inst, shown_text, turn_line};

use crate::line::Line;
use crate::text::put_inst;
use mx_io::{Failed, Sink, put_all};
use mx_isa::Inst;
use mx_model::TurnKind;
use mx_tail::Tail;

/// What is seen of a hart before its turn.
#[derive(Clone, Copy, PartialEq, Eq)]
pub struct Seen {
    /// Its domain.
    pub domain: u32,
    /// The address at which it stands.
    pub pc: u32,
    /// The instruction there, where the hart isn't halted, its domain may fetch there, and the word is an instruction.
    pub inst: Option<Inst>,
}

/// The name of what a turn was.
pub fn kind_name(kind: TurnKind) -> &'static str
    ensures { result.now ≡ kind_name kind }
{
    match kind {
        TurnKind::Idle => "idle",
        TurnKind::Waited => "waited",
        TurnKind::Ran => "ran",
        TurnKind::Crossed => "crossed",
        TurnKind::Returned => "returned",
        TurnKind::Trapped => "trapped",
        TurnKind::Called => "called",
    }
}

/// Puts the line of a turn: `turn S H D 0xP K TEXT`, with the number of turns made, this one included, the hart, its
/// domain and pc
/// before the turn, what the turn was, and the text of the instruction at pc. Where there is none to show the text is
/// `-`, and so
/// are domain and address for a hart that there isn't. The instruction is one that `is_valid` accepts. Where a write
/// fails, a
/// prefix of the line was appended.
pub fn turn_line<R: Sink>(
    sink: &mut R,
    step: u64,
    hart: u32,
    before: Option<Seen>,
    kind: TurnKind,
) -> Result<(), Failed>
    requires { IfSome (seen_inst before) IsValid }
    ensures { Puts (R.state sink.old) (R.state sink.new) (turn_line step hart before kind) result }
{
    let mut line = Line::<128>::new();
    put_parts(&mut line, step, hart, before, kind);
    put_all(sink, line.as_slice())
}

/// Puts the line of a turn through a buffer.
pub fn put_turn<R: Sink>(
    tail: &mut Tail,
    sink: &mut R,
    step: u64,
    hart: u32,
    before: Option<Seen>,
    kind: TurnKind,
) -> Result<(), Failed>
    requires { IfSome (seen_inst before) IsValid }
    ensures passes { Passes tail.old (R.state sink.old) (R.state sink.new) tail.new
        (turn_line step hart before kind) result }
    ensures few { length tail.new < piece_bytes }
{
    let mut line = Line::<128>::new();
    put_parts(&mut line, step, hart, before, kind);
    tail.put(sink, line.as_slice())
}

/// The line, before what is there: the last part is put first.
#[tactic(auto, unfolding(crate::specs::Lines::turn_line))]
fn put_parts<const N: usize>(
    line: &mut Line<N>,
    step: u64,
    hart: u32,
    before: Option<Seen>,
    kind: TurnKind,
)
    requires { 113 + length line.old ≤ N }
    ensures { line.new ≡ turn_line step hart before kind ++ line.old }
{
    line.put_text("\n");
    put_shown(line, before);
    line.put_text(" ");
    put_kind(line, kind);
    line.put_text(" ");
    put_place(line, before);
    line.put_text(" ");
    line.put_number(hart);
    line.put_text(" ");
    line.put_long(step);
    line.put_text("turn ");
}

/// The name of what a turn was. Each is a text of its own, so that its length is known where it is copied.
fn put_kind<const N: usize>(line: &mut Line<N>, kind: TurnKind)
    requires { 8 + length line.old ≤ N }
    ensures text { line.new ≡ kind_name kind ++ line.old }
    ensures few { length line.new ≤ 8 + length line.old }
{
    match kind {
        TurnKind::Idle => line.put_text("idle"),
        TurnKind::Waited => line.put_text("waited"),
        TurnKind::Ran => line.put_text("ran"),
        TurnKind::Crossed => line.put_text("crossed"),
        TurnKind::Returned => line.put_text("returned"),
        TurnKind::Trapped => line.put_text("trapped"),
        TurnKind::Called => line.put_text("called"),
    }
}

/// The domain and pc of a hart before its turn.
fn put_place<const N: usize>(line: &mut Line<N>, before: Option<Seen>)
    requires { 21 + length line.old ≤ N }
    ensures text { line.new ≡ place_text before ++ line.old }
    ensures few { length line.new ≤ 21 + length line.old }
{
    match before {
        None => line.put_text("- -"),
        Some(seen) => {
            line.put_hex(seen.pc);
            line.put_text(" ");
            line.put_number(seen.domain);
        }
    }
}

/// The text of the instruction that stands at its pc.
fn put_shown<const N: usize>(line: &mut Line<N>, before: Option<Seen>)
    requires { 44 + length line.old ≤ N }
    ensures text { line.new ≡ shown_text (seen_inst before) ++ line.old }
    ensures few { length line.new ≤ 44 + length line.old }
{
    match before {
        Some(
            Seen {
                inst: Some(inst),
                ..
            },
        ) => put_inst(line, &inst),
        _ => line.put_text("-"),
    }
}
