//! The four lines, which leave through a buffer in one write where the sink takes that at once.

ghost use Rattle.std.specs.Prelude.{◌≡◌};
ghost use Rattle.mx_io.specs.Sink.{Puts};
ghost use Rattle.mx_any.specs.Machines.{meaning};
ghost use Rattle.mx_report.specs.Lines.{end_name};
ghost use Rattle.mx_tail.specs.Tail.{Passes};
ghost use Rattle.mx_mill.specs.Lines.{count_text, mill_line, mill_lines, sums_line, tally_line, total, totals_line};
ghost use Rattle.mx_mill.specs.Lines.{used_line};

use itoa::Buffer;
use mx_any::AnyMachine;
use mx_io::{Failed, Piece, Sink};
use mx_report::EndState;
use mx_tail::{Tail, put_pieces};
use mx_turns::{Tally, end_of_any};
use mx_words::Need;

/// Puts the lines of a machine that was to make so many turns and made them.
pub(crate) fn put_lines<R: Sink>(
    k: u32,
    steps: u64,
    tally: Tally,
    machine: &AnyMachine,
    report: &mut R,
) -> Result<(), Failed>
    ensures { Puts (R.state report.old) (R.state report.new)
        (mill_lines k steps tally (meaning machine.now)) result }
{
    let mut tail = Tail::new();
    put_all_lines(k, steps, tally, machine, &mut tail, report)?;
    tail.end(report)
}

// Puts the lines through a buffer.
fn put_all_lines<R: Sink>(
    k: u32,
    steps: u64,
    tally: Tally,
    machine: &AnyMachine,
    tail: &mut Tail,
    report: &mut R,
) -> Result<(), Failed>
    ensures { Passes tail.old (R.state report.old) (R.state report.new) tail.new
        (mill_lines k steps tally (meaning machine.now)) result }
{
    put_turns(tail, report, k, machine.steps(), end_of_any(steps, machine))?;
    put_tally(tail, report, tally)?;
    put_totals(tail, report, machine)?;
    put_used(tail, report, &machine.used())
}

fn end_name(state: EndState) -> &'static str
    ensures { result.now ≡ end_name state }
{
    match state {
        EndState::Halted => "halted",
        EndState::Steps => "steps",
        EndState::Schedule => "schedule",
    }
}

#[tactic(auto, unfolding(crate::specs::Lines::mill_line))]
fn put_turns<R: Sink>(
    tail: &mut Tail,
    report: &mut R,
    k: u32,
    steps: u64,
    state: EndState,
) -> Result<(), Failed>
    ensures { Passes tail.old (R.state report.old) (R.state report.new) tail.new
        (mill_line k steps state) result }
{
    put_pieces(
        tail,
        report,
        &[
            Piece::Text("mill k="),
            Piece::Number(u64::from(k)),
            Piece::Text(" steps="),
            Piece::Number(steps),
            Piece::Text(" state="),
            Piece::Text(end_name(state)),
            Piece::Text("\n"),
        ],
    )
}

#[tactic(auto, unfolding(crate::specs::Lines::tally_line))]
fn put_tally<R: Sink>(tail: &mut Tail, report: &mut R, tally: Tally) -> Result<(), Failed>
    ensures { Passes tail.old (R.state report.old) (R.state report.new) tail.new
        (tally_line tally) result }
{
    put_pieces(
        tail,
        report,
        &[
            Piece::Text("console="),
            Piece::Number(tally.bytes),
            Piece::Text(" faults="),
            Piece::Number(tally.faults),
            Piece::Text(" exits="),
            Piece::Number(tally.exits),
            Piece::Text("\n"),
        ],
    )
}

// The counts of all harts together. Each is below 2^64, and their sum may not be.
#[derive(Clone, Copy)]
struct Sums {
    sidecar: u128,
    lookaside: u128,
    walks: u128,
}

fn summed(machine: &AnyMachine) -> Sums
    ensures sidecar { result.sidecar ≡ total (λ c. c.sidecar) (meaning machine.now).core }
    ensures lookaside { result.lookaside ≡ total (λ c. c.lookaside) (meaning machine.now).core }
    ensures walks { result.walks ≡ total (λ c. c.walks) (meaning machine.now).core }
{
    let mut sums = Sums {
        sidecar: 0,
        lookaside: 0,
        walks: 0,
    };
    'summing: for hart in 0..machine.harts() {
        let counts = machine.counts(hart);
        sums.sidecar += u128::from(counts.sidecar);
        sums.lookaside += u128::from(counts.lookaside);
        sums.walks += u128::from(counts.walks);
    }
    sums
}

fn put_totals<R: Sink>(tail: &mut Tail, report: &mut R, machine: &AnyMachine) -> Result<(), Failed>
    ensures { Passes tail.old (R.state report.old) (R.state report.new) tail.new
        (totals_line (meaning machine.now).core) result }
{
    put_sums(tail, report, summed(machine))
}

fn put_sums<R: Sink>(tail: &mut Tail, report: &mut R, sums: Sums) -> Result<(), Failed>
    ensures { Passes tail.old (R.state report.old) (R.state report.new) tail.new
        (sums_line sums.sidecar sums.lookaside sums.walks) result }
{
    put_count(tail, report, "counts sidecar=", sums.sidecar)?;
    put_count(tail, report, " lookaside=", sums.lookaside)?;
    put_count(tail, report, " walks=", sums.walks)?;
    put_bytes(tail, report, b"\n")
}

// Puts a count behind its name.
fn put_count<R: Sink>(
    tail: &mut Tail,
    report: &mut R,
    name: &str,
    count: u128,
) -> Result<(), Failed>
    ensures { Passes tail.old (R.state report.old) (R.state report.new) tail.new
        (count_text name.now count) result }
{
    put_bytes(tail, report, name.as_bytes())?;
    put_bytes(tail, report, Buffer::new().format(count).as_bytes())
}

#[tactic(auto, using(mx_tail::proofs::PassLaws::passes_adds))]
fn put_bytes<R: Sink>(tail: &mut Tail, report: &mut R, bytes: &[u8]) -> Result<(), Failed>
    ensures { Passes tail.old (R.state report.old) (R.state report.new) tail.new bytes.now result }
{
    tail.put(report, bytes)
}

#[tactic(auto, unfolding(crate::specs::Lines::used_line))]
fn put_used<R: Sink>(tail: &mut Tail, report: &mut R, used: &Need) -> Result<(), Failed>
    ensures { Passes tail.old (R.state report.old) (R.state report.new) tail.new
        (used_line used.now) result }
{
    put_pieces(
        tail,
        report,
        &[
            Piece::Text("tables kind=packed upper="),
            Piece::Number(used.upper as u64),
            Piece::Text(" leaf="),
            Piece::Number(used.leaf as u64),
            Piece::Text(" spill="),
            Piece::Number(used.spill as u64),
            Piece::Text("\n"),
        ],
    )
}
