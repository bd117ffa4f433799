//! The turns of a run. No call takes memory.

ghost use Rattle.std.specs.Prelude.{◌≡◌, ◌+◌, ◌-◌, ◌^◌, ◌<◌, ◌≤◌, false, length, IfOk};
ghost use Rattle.mx_model.specs.Run.{all_halted, run};
ghost use Rattle.mx_model.specs.State.{State, flat};
ghost use Rattle.mx_tail.specs.Tail.{Passes, piece_bytes};
ghost use Rattle.mx_turns.specs.Running.{schedule_of, HasRun, HasTurns, Begins, KeepsShape, RunsOrStops, ShowsOrStops};
ghost use Rattle.mx_turns.specs.Running.{StopsAt, adds_by, told_by, may_tell, places};

use crate::fault::SinkFault;
use crate::pace::{Schedule, begin};
use crate::rows::{Row, Rows, make_rows};
use mx_io::{Failed, Sink};
use mx_machine::{Machine, machine_is_valid};
use mx_model::{Events, Note, TurnKind};
use mx_report::{Tail, put_note};
use mx_table::PermTables;

/// What a run tells in its report during the turns.
#[derive(Clone, Copy)]
pub(crate) enum Telling {
    /// The lines of notes.
    Notes,
    /// Nothing.
    Nothing,
}

/// Makes at most `steps` turns, until the schedule ends or all harts are halted. What the turns add leaves through the
/// buffers.
pub(crate) fn make_turns<T: PermTables, const N: usize, C: Sink, R: Sink>(
    steps: u64,
    schedule: Schedule<'_>,
    telling: Telling,
    machine: &mut Machine<T, N>,
    shown: &mut Tail,
    console: &mut C,
    told: &mut Tail,
    report: &mut R,
) -> Result<(), SinkFault>
    requires few { machine.old.core.turns + steps < 2 ^ 64 - 1 }
    requires quantum { HasTurns schedule }
    ensures keeps { KeepsShape machine.old machine.new }
    ensures turns { machine.new.core.turns ≤ machine.old.core.turns + steps }
    ensures runs { (s : State) → Begins s machine.old
        (places (C.state console.old) shown.old (R.state report.old) told.old)
        → RunsOrStops (λ made. run (schedule_of schedule.entry) made s)
        (λ made. told_by telling (run (schedule_of schedule.entry) made s)) steps machine.new
        (places (C.state console.old) shown.old (R.state report.old) told.old)
        (places (C.state console.new) shown.new (R.state report.new) told.new) result }
{
    machine_is_valid(machine);
    if machine.all_halted() {
        return Ok(());
    }
    let start = begin(schedule, machine.harts(), machine.steps());
    make_rows(
        steps, start, &telling, machine, shown, console, told, report,
    )
}

impl<T: PermTables, const N: usize, C: Sink, R: Sink> Rows<Machine<T, N>, C, R> for Telling {
    ghost means = { λ m. m };

    ghost Stands = { λ telling p made s before m shown console told report.
        HasRun telling (run p made s) m before (places (C.state console) shown (R.state report) told) };

    ghost Stops = { λ telling p made s before m shown console told report.
        StopsAt (λ n. run p n s) (λ n. told_by telling (run p n s)) made m before
        (places (C.state console) shown (R.state report) told) };

    #[inline(always)]
    fn make_row(
        &self,
        hart: u32,
        most: u64,
        machine: &mut Machine<T, N>,
        events: &mut Events,
        shown: &mut Tail,
        console: &mut C,
        told: &mut Tail,
        report: &mut R,
    ) -> Result<Row, SinkFault> {
        let stretch = machine.run_on(hart, most, events);
        let turns = stretch.ran + 1;
        // Nearly all turns add nothing and halt no hart: of these nothing but their kind is looked at.
        if !may_tell(stretch.last) {
            return Ok(Row {
                turns,
                halted: false,
            });
        }
        match end_turn(machine, events, *self, shown, console, told, report) {
            Ok(halted) => Ok(Row { turns, halted }),
            Err(fault) => Err(fault),
        }
    }
}

// Whether a turn of a kind can add something or halt its hart.
fn may_tell(kind: TurnKind) -> bool
    ensures { result ≡ may_tell kind }
{
    match kind {
        TurnKind::Trapped | TurnKind::Called => true,
        TurnKind::Idle
        | TurnKind::Waited
        | TurnKind::Ran
        | TurnKind::Crossed
        | TurnKind::Returned => false,
    }
}

// Puts what a turn adds through the buffers, and tells whether all harts are halted.
#[cold]
fn end_turn<T: PermTables, const N: usize, C: Sink, R: Sink>(
    machine: &Machine<T, N>,
    events: &Events,
    telling: Telling,
    shown: &mut Tail,
    console: &mut C,
    told: &mut Tail,
    report: &mut R,
) -> Result<bool, SinkFault>
    ensures halted { IfOk result (λ halted. halted ≡ all_halted machine.now.core) }
    ensures shows { ShowsOrStops events.now.bytes (adds_by telling events.now.note)
        (places (C.state console.old) shown.old (R.state report.old) told.old)
        (places (C.state console.new) shown.new (R.state report.new) told.new) result }
{
    match show(events, telling, shown, console, told, report) {
        Ok(()) => Ok(machine.all_halted()),
        Err(fault) => Err(fault),
    }
}

// Puts what a turn adds through the buffers: its console bytes, and the line of its note.
fn show<C: Sink, R: Sink>(
    events: &Events,
    telling: Telling,
    shown: &mut Tail,
    console: &mut C,
    told: &mut Tail,
    report: &mut R,
) -> Result<(), SinkFault>
    ensures { ShowsOrStops events.now.bytes (adds_by telling events.now.note)
        (places (C.state console.old) shown.old (R.state report.old) told.old)
        (places (C.state console.new) shown.new (R.state report.new) told.new) result }
{
    match shown.add(console, events) {
        Ok(()) => match put_told(told, report, telling, events.note()) {
            Ok(()) => Ok(()),
            Err(Failed) => Err(SinkFault::Report),
        },
        Err(Failed) => Err(SinkFault::Console),
    }
}

// Puts the line of a note, if there is one, through a buffer.
#[tactic(auto, using(mx_tail::proofs::PassLaws::passes_adds))]
fn put_told<R: Sink>(
    told: &mut Tail,
    report: &mut R,
    telling: Telling,
    note: Option<Note>,
) -> Result<(), Failed>
    ensures passes { Passes told.old (R.state report.old) (R.state report.new) told.new
        (adds_by telling note) result }
    ensures few { length told.new < piece_bytes }
{
    match telling {
        Telling::Notes => match note {
            Some(note) => put_note(told, report, &note),
            None => told.put(report, b""),
        },
        Telling::Nothing => told.put(report, b""),
    }
}
