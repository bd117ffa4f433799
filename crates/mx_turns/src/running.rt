//! A run: its turns and its texts.

ghost use Rattle.std.specs.Prelude.{◌≡◌, ◌+◌, ◌-◌, ◌<◌, ◌^◌, map};
ghost use Rattle.mx_any.specs.Machines.{meaning};
ghost use Rattle.mx_model.specs.State.{State, flat};
ghost use Rattle.mx_snapshot.specs.Kept.{IsOfPlan};
ghost use Rattle.mx_turns.specs.Ends.{Leave, MakesTurns, sinks};
ghost use Rattle.mx_turns.specs.Running.{HasTurns, IsNew, RunsOut, states_of, texts_of};

use crate::each::each;
use crate::ending::{end_run, put_dump};
use crate::fault::SinkFault;
use crate::task::Task;
use crate::turns::{Telling, make_turns};
use mx_any::AnyMachine;
use mx_io::{Failed, Sink};
use mx_machine::Machine;
use mx_report::{Tail, closing_of_a_flat_state};
use mx_snapshot::Kept;
use mx_table::PermTables;

/// Makes the turns of a run and writes its texts: console and notes' lines during the turns, then the closing lines,
/// and last the
/// dump. The first sink that fails ends the run: no turn is made after it. Where that is the console, what of the
/// report was told
/// before still leaves.
///
/// The names are those of the plan's modules, in order. Takes no memory.
pub fn make_run<C: Sink, R: Sink, D: Sink>(
    task: &Task<'_>,
    kept: &Kept,
    names: &[&str],
    machine: &mut AnyMachine,
    console: &mut C,
    report: &mut R,
    dump: &mut D,
) -> Result<(), SinkFault>
    requires few { (meaning machine.old).core.turns + task.now.steps < 2 ^ 64 - 1 }
    requires quantum { HasTurns task.now.schedule }
    requires names { map (λ name. name.now) names.now ≡ kept.now.names }
    requires plan { IsOfPlan kept.now (meaning machine.old) }
    ensures leave { (s : State) → IsNew s → meaning machine.old ≡ flat s →
        Leave (texts_of kept.now task.now s)
        (sinks (C.state console.old) (R.state report.old) (D.state dump.old))
        (sinks (C.state console.new) (R.state report.new) (D.state dump.new)) result }
    ensures turns { (s : State) → IsNew s → meaning machine.old ≡ flat s →
        MakesTurns (texts_of kept.now task.now s) (states_of task.now s)
        (sinks (C.state console.old) (R.state report.old) (D.state dump.old))
        (sinks (C.state console.new) (R.state report.new) (D.state dump.new)) (meaning machine.new)
        result }
{
    match run_any(task, kept, names, machine, console, report) {
        Ok(()) => match put_dump(task.dump, kept, machine, dump) {
            Ok(()) => Ok(()),
            Err(Failed) => Err(SinkFault::Dump),
        },
        Err(fault) => Err(fault),
    }
}

// Makes the turns of a machine of any kind, and writes console and report.
fn run_any<C: Sink, R: Sink>(
    task: &Task<'_>,
    kept: &Kept,
    names: &[&str],
    machine: &mut AnyMachine,
    console: &mut C,
    report: &mut R,
) -> Result<(), SinkFault>
    requires few { (meaning machine.old).core.turns + task.now.steps < 2 ^ 64 - 1 }
    requires quantum { HasTurns task.now.schedule }
    requires names { map (λ name. name.now) names.now ≡ kept.now.names }
    requires plan { IsOfPlan kept.now (meaning machine.old) }
    ensures { RunsOut kept.now task.now (meaning machine.old) (meaning machine.new)
        (C.state console.old) (C.state console.new) (R.state report.old) (R.state report.new) result }
{
    each!(machine, machine => run_machine(task, kept, names, machine, console, report))
}

// Makes the turns of a machine, and writes console and report.
fn run_machine<T: PermTables, const N: usize, C: Sink, R: Sink>(
    task: &Task<'_>,
    kept: &Kept,
    names: &[&str],
    machine: &mut Machine<T, N>,
    console: &mut C,
    report: &mut R,
) -> Result<(), SinkFault>
    requires few { machine.old.core.turns + task.now.steps < 2 ^ 64 - 1 }
    requires quantum { HasTurns task.now.schedule }
    requires names { map (λ name. name.now) names.now ≡ kept.now.names }
    requires plan { IsOfPlan kept.now machine.old }
    ensures { RunsOut kept.now task.now machine.old machine.new
        (C.state console.old) (C.state console.new) (R.state report.old) (R.state report.new) result }
{
    closing_of_a_flat_state();
    let target = machine.steps() + task.steps;
    let mut shown = Tail::new();
    let mut told = Tail::new();
    match make_turns(
        task.steps,
        task.schedule,
        Telling::Notes,
        machine,
        &mut shown,
        console,
        &mut told,
        report,
    ) {
        Ok(()) => end_run(
            target,
            task.options,
            kept,
            names,
            machine,
            &mut shown,
            console,
            &mut told,
            report,
        ),
        Err(SinkFault::Console) => {
            let _ = told.end(report);
            Err(SinkFault::Console)
        }
        Err(SinkFault::Report) => Err(SinkFault::Report),
        Err(SinkFault::Dump) => Err(SinkFault::Dump),
    }
}
