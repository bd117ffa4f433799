//! Lines of notes, of the end and of harts.
ghost use Rattle.std.specs.Prelude.{◌≡◌, ◌<◌, ℕ, List, [], length, flat_map};
ghost use Rattle.mx_io.specs.Sink.{Puts, SinkState};
ghost use Rattle.mx_tail.specs.Tail.{Passes, piece_bytes};
ghost use Rattle.mx_report.specs.Lines.{fault_line, exit_line, note_line, end_name, end_line, status_name, hart_text};
ghost use Rattle.mx_report.specs.Lines.{register_text, registers_line, view_lines};

use crate::{Tail, put_pieces};
use mx_io::{Failed, Piece, Sink};
use mx_machine::{HartStatus, HartView};
use mx_model::{Fault, Note};

/// Why a run ended.
#[derive(Clone, Copy)]
pub enum EndState {
    /// All harts are halted.
    Halted,
    /// The steps asked are made.
    Steps,
    /// The schedule is at its end.
    Schedule,
}

/// Puts the line of a fault at a step, the number of turns made, in a domain.
pub fn fault_line<R: Sink>(
    sink: &mut R,
    step: u64,
    hart: u32,
    domain: u32,
    pc: u32,
    fault: &Fault,
) -> Result<(), Failed>
    ensures { Puts (R.state sink.old) (R.state sink.new)
        (fault_line step hart domain pc fault.now) result }
{
    let mut tail = Tail::new();
    let put = put_fault(&mut tail, sink, step, hart, domain, pc, fault);
    end_lines(&mut tail, sink, put)
}

/// Puts the line of an exit at a step, the number of turns made, with a code.
pub fn exit_line<R: Sink>(
    sink: &mut R,
    step: u64,
    hart: u32,
    domain: u32,
    code: u32,
) -> Result<(), Failed>
    ensures { Puts (R.state sink.old) (R.state sink.new) (exit_line step hart domain code) result }
{
    let mut tail = Tail::new();
    let put = put_exit(&mut tail, sink, step, hart, domain, code);
    end_lines(&mut tail, sink, put)
}

/// Puts the end line: how many turns were made, and why the run ended.
pub fn end_line<R: Sink>(sink: &mut R, steps: u64, state: EndState) -> Result<(), Failed>
    ensures { Puts (R.state sink.old) (R.state sink.new) (end_line steps state) result }
{
    let mut tail = Tail::new();
    let put = put_end(&mut tail, sink, steps, state);
    end_lines(&mut tail, sink, put)
}

/// Puts the two lines of a hart.
pub fn hart_lines<R: Sink>(sink: &mut R, hart: u32, view: &HartView) -> Result<(), Failed>
    ensures { Puts (R.state sink.old) (R.state sink.new) (view_lines hart view.now) result }
{
    let mut tail = Tail::new();
    let put = put_hart(&mut tail, sink, hart, view);
    end_lines(&mut tail, sink, put)
}

/// Ends lines that were put through an empty buffer: what it still holds is put, unless a line couldn't be.
pub(crate) fn end_lines<R: Sink>(
    tail: &mut Tail,
    sink: &mut R,
    put: Result<(), Failed>,
) -> Result<(), Failed>
    ensures { (b : List ℕ) (s : SinkState) (text : List ℕ) → b ≡ [] →
        Passes b s (R.state sink.old) tail.old text put → Puts s (R.state sink.new) text result }
{
    match put {
        Ok(()) => tail.end(sink),
        Err(failed) => Err(failed),
    }
}

/// Puts the line of a note through a buffer.
pub fn put_note<R: Sink>(tail: &mut Tail, sink: &mut R, note: &Note) -> Result<(), Failed>
    ensures passes { Passes tail.old (R.state sink.old) (R.state sink.new) tail.new
        (note_line note.now) result }
    ensures few { length tail.new < piece_bytes }
{
    match *note {
        Note::Fault {
            step,
            hart,
            domain,
            pc,
            fault,
        } => { put_fault(tail, sink, step, hart, domain, pc, &fault) }
        Note::Exit {
            step,
            hart,
            domain,
            code,
        } => put_exit(tail, sink, step, hart, domain, code),
    }
}

#[tactic(auto, unfolding(crate::specs::Lines::fault_line))]
fn put_fault<R: Sink>(
    tail: &mut Tail,
    sink: &mut R,
    step: u64,
    hart: u32,
    domain: u32,
    pc: u32,
    fault: &Fault,
) -> Result<(), Failed>
    ensures passes { Passes tail.old (R.state sink.old) (R.state sink.new) tail.new
        (fault_line step hart domain pc fault.now) result }
    ensures few { length tail.new < piece_bytes }
{
    put_pieces(
        tail,
        sink,
        &[
            Piece::Text("fault step="),
            Piece::Number(step),
            Piece::Text(" hart="),
            Piece::Number(hart as u64),
            Piece::Text(" domain="),
            Piece::Number(domain as u64),
            Piece::Text(" pc="),
            Piece::Hex(pc),
            Piece::Text(" cause="),
            Piece::Number(fault.cause as u64),
            Piece::Text(" value="),
            Piece::Hex(fault.value),
            Piece::Text("\n"),
        ],
    )
}

#[tactic(auto, unfolding(crate::specs::Lines::exit_line))]
fn put_exit<R: Sink>(
    tail: &mut Tail,
    sink: &mut R,
    step: u64,
    hart: u32,
    domain: u32,
    code: u32,
) -> Result<(), Failed>
    ensures passes { Passes tail.old (R.state sink.old) (R.state sink.new) tail.new
        (exit_line step hart domain code) result }
    ensures few { length tail.new < piece_bytes }
{
    put_pieces(
        tail,
        sink,
        &[
            Piece::Text("exit step="),
            Piece::Number(step),
            Piece::Text(" hart="),
            Piece::Number(hart as u64),
            Piece::Text(" domain="),
            Piece::Number(domain as u64),
            Piece::Text(" code="),
            Piece::Number(code as u64),
            Piece::Text("\n"),
        ],
    )
}

fn end_name(state: EndState) -> &'static str
    ensures { result.now ≡ end_name state }
{
    match state {
        EndState::Halted => "halted",
        EndState::Steps => "steps",
        EndState::Schedule => "schedule",
    }
}

/// Puts the end line through a buffer, as `end_line`: for a report that ends without the other closing lines.
#[tactic(auto, unfolding(crate::specs::Lines::end_line))]
pub fn put_end<R: Sink>(
    tail: &mut Tail,
    sink: &mut R,
    steps: u64,
    state: EndState,
) -> Result<(), Failed>
    ensures passes { Passes tail.old (R.state sink.old) (R.state sink.new) tail.new
        (end_line steps state) result }
    ensures few { length tail.new < piece_bytes }
{
    put_pieces(
        tail,
        sink,
        &[
            Piece::Text("end steps="),
            Piece::Number(steps),
            Piece::Text(" state="),
            Piece::Text(end_name(state)),
            Piece::Text("\n"),
        ],
    )
}

pub(crate) fn put_hart<R: Sink>(
    tail: &mut Tail,
    sink: &mut R,
    hart: u32,
    view: &HartView,
) -> Result<(), Failed>
    ensures { Passes tail.old (R.state sink.old) (R.state sink.new) tail.new
        (view_lines hart view.now) result }
{
    put_state(tail, sink, hart, view)?;
    put_registers(tail, sink, hart, &view.regs)
}

fn status_name(status: HartStatus) -> &'static str
    ensures { result.now ≡ status_name status }
{
    match status {
        HartStatus::Running => "running",
        HartStatus::Waiting => "waiting",
        HartStatus::Halted => "halted",
    }
}

#[tactic(auto, unfolding(crate::specs::Lines::hart_text))]
fn put_state<R: Sink>(
    tail: &mut Tail,
    sink: &mut R,
    hart: u32,
    view: &HartView,
) -> Result<(), Failed>
    ensures { Passes tail.old (R.state sink.old) (R.state sink.new) tail.new
        (hart_text hart view.now.status view.now.domain view.now.pc view.now.frames) result }
{
    put_pieces(
        tail,
        sink,
        &[
            Piece::Text("hart "),
            Piece::Number(hart as u64),
            Piece::Text(" status="),
            Piece::Text(status_name(view.status)),
            Piece::Text(" domain="),
            Piece::Number(view.domain as u64),
            Piece::Text(" pc="),
            Piece::Hex(view.pc),
            Piece::Text(" frames="),
            Piece::Number(view.frames as u64),
            Piece::Text("\n"),
        ],
    )
}

fn put_registers<R: Sink>(
    tail: &mut Tail,
    sink: &mut R,
    hart: u32,
    regs: &[u32],
) -> Result<(), Failed>
    ensures { Passes tail.old (R.state sink.old) (R.state sink.new) tail.new
        (registers_line hart regs.now) result }
{
    put_pieces(
        tail,
        sink,
        &[Piece::Text("regs "), Piece::Number(hart as u64)],
    )?;
    put_values(tail, sink, regs)?;
    put_pieces(tail, sink, &[Piece::Text("\n")])
}

fn put_values<R: Sink>(tail: &mut Tail, sink: &mut R, values: &[u32]) -> Result<(), Failed>
    ensures { Passes tail.old (R.state sink.old) (R.state sink.new) tail.new
        (flat_map register_text values.now) result }
{
    for value in values {
        put_value(tail, sink, *value)?;
    }
    Ok(())
}

#[tactic(auto, unfolding(crate::specs::Lines::register_text))]
fn put_value<R: Sink>(tail: &mut Tail, sink: &mut R, value: u32) -> Result<(), Failed>
    ensures { Passes tail.old (R.state sink.old) (R.state sink.new) tail.new
        (register_text value) result }
{
    put_pieces(tail, sink, &[Piece::Text(" "), Piece::Digits(value)])
}
