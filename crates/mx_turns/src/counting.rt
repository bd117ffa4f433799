//! The turns of a run that writes nothing: what its texts come to is counted. No call takes memory.

ghost use Rattle.std.specs.Prelude.{◌≡◌, ◌+◌, ◌-◌, ◌<◌, ◌≤◌, ◌^◌, count_by, option_to_list};
ghost use Rattle.mx_any.specs.Machines.{meaning};
ghost use Rattle.mx_model.specs.Run.{run};
ghost use Rattle.mx_model.specs.State.{State, flat};
ghost use Rattle.mx_turns.specs.Counting.{IsCounted, IsSum, IsTallied, is_exit, is_fault};
ghost use Rattle.mx_turns.specs.Running.{HasTurns, IsNew, schedule_of};

use crate::each::each;
use crate::fault::SinkFault;
use crate::pace::{Schedule, begin};
use crate::rows::{Row, Rows, make_rows};
use mx_any::AnyMachine;
use mx_machine::{Machine, machine_is_valid};
use mx_model::{Events, Note};
use mx_report::Tail;
use mx_table::PermTables;

/// What the texts of a run come to.
#[derive(Clone, Copy, PartialEq, Eq)]
pub struct Tally {
    /// How many console bytes there were.
    pub bytes: u64,
    /// How many faults.
    pub faults: u64,
    /// How many exits.
    pub exits: u64,
}

/// Makes the turns of a run, at most so many, and counts what they add. The machine made no turn that told anything
/// before; the
/// schedule ends the run, or that all harts are halted.
pub fn count_turns(steps: u32, schedule: Schedule<'_>, machine: &mut AnyMachine) -> Tally
    requires few { (meaning machine.old).core.turns + steps < 2 ^ 64 - 1 }
    requires quantum { HasTurns schedule }
    ensures { (s : State) → IsNew s → meaning machine.old ≡ flat s →
        IsCounted (run (schedule_of schedule.entry) steps s) (meaning machine.new) result }
{
    let steps = u64::from(steps);
    each!(machine, machine => count_machine(steps, schedule, machine))
}

// The same of a machine over one kind of tables.
fn count_machine<T: PermTables, const N: usize>(
    steps: u64,
    schedule: Schedule<'_>,
    machine: &mut Machine<T, N>,
) -> Tally
    requires few { machine.old.core.turns + steps < 2 ^ 64 - 1 }
    requires short { steps < 2 ^ 32 }
    requires quantum { HasTurns schedule }
    ensures { (s : State) → IsNew s → machine.old ≡ flat s →
        IsCounted (run (schedule_of schedule.entry) steps s) machine.new result }
{
    machine_is_valid(machine);
    let mut tally = Tally {
        bytes: 0,
        faults: 0,
        exits: 0,
    };
    if machine.all_halted() {
        return tally;
    }
    let start = begin(schedule, machine.harts(), machine.steps());
    let mut shown = Tail::new();
    let mut told = Tail::new();
    // What is counted can't fail.
    let _ = make_rows(
        steps,
        start,
        &Counting,
        machine,
        &mut shown,
        &mut (),
        &mut told,
        &mut tally,
    );
    tally
}

/// Turns are counted, and nothing of them is put anywhere.
struct Counting;

impl<T: PermTables, const N: usize> Rows<Machine<T, N>, (), Tally> for Counting {
    ghost means = { λ m. m };

    ghost Stands = { λ counting p made s before m shown console told tally.
        IsTallied made (run p made s) m tally };

    ghost Stops = { λ counting p made s before m shown console told tally which. ⊥ };

    #[inline(always)]
    fn make_row(
        &self,
        hart: u32,
        most: u64,
        machine: &mut Machine<T, N>,
        events: &mut Events,
        _shown: &mut Tail,
        _console: &mut (),
        _told: &mut Tail,
        report: &mut Tally,
    ) -> Result<Row, SinkFault> {
        let stretch = machine.run_on(hart, most, events);
        *report = counted(*report, events);
        Ok(Row {
            turns: stretch.ran + 1,
            halted: machine.all_halted(),
        })
    }
}

// A tally with what a turn adds.
fn counted(tally: Tally, events: &Events) -> Tally
    ensures { IsSum tally events.now result }
{
    let (faults, exits) = noted(events.note());
    Tally {
        bytes: tally.bytes.saturating_add(u64::from(events.len())),
        faults: tally.faults.saturating_add(faults),
        exits: tally.exits.saturating_add(exits),
    }
}

// How many faults and exits a turn tells: one of the two, or none.
fn noted(note: Option<Note>) -> (u64, u64)
    ensures faults { result.0 ≡ count_by is_fault (option_to_list note) }
    ensures exits { result.1 ≡ count_by is_exit (option_to_list note) }
    ensures few_faults { result.0 ≤ 1 }
    ensures few_exits { result.1 ≤ 1 }
{
    match note {
        Some(Note::Fault { .. }) => (1, 0),
        Some(Note::Exit { .. }) => (0, 1),
        None => (0, 0),
    }
}
