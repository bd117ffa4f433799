//! The end of a run: the console's rest, the report's closing lines, and the dump. No call takes memory.

ghost use Rattle.std.specs.Prelude.{◌≡◌, ◌++◌, length, map};
ghost use Rattle.mx_io.specs.Sink.{Puts};
ghost use Rattle.mx_any.specs.Machines.{meaning};
ghost use Rattle.mx_model.specs.Run.{all_halted};
ghost use Rattle.mx_model.specs.State.{Core};
ghost use Rattle.mx_report.specs.Texts.{flat_closing};
ghost use Rattle.mx_snapshot.specs.Kept.{IsOfPlan};
ghost use Rattle.mx_turns.specs.Runs.{dumped, end_of};
ghost use Rattle.mx_turns.specs.Running.{Closes, places};

use crate::fault::SinkFault;
use crate::task::Dump;
use mx_any::AnyMachine;
use mx_io::{Failed, Sink, put_all};
use mx_machine::Machine;
use mx_report::{EndState, Options, Tail, put_closing};
use mx_snapshot::{Kept, ram_bytes, write_snapshot};
use mx_table::PermTables;

/// Ends a run that was to reach so many turns: what the buffers hold leaves, and after it the report's closing lines.
/// Where the
/// console fails, what the report's buffer holds leaves and nothing else.
pub(crate) fn end_run<T: PermTables, const N: usize, C: Sink, R: Sink>(
    target: u64,
    options: Options,
    kept: &Kept,
    names: &[&str],
    machine: &Machine<T, N>,
    shown: &mut Tail,
    console: &mut C,
    told: &mut Tail,
    report: &mut R,
) -> Result<(), SinkFault>
    requires names { map (λ name. name.now) names.now ≡ kept.now.names }
    requires plan { IsOfPlan kept.now machine.now }
    ensures { Closes (flat_closing kept.now.names (end_of target machine.now.core) options machine.now)
        (places (C.state console.old) shown.old (R.state report.old) told.old)
        (places (C.state console.new) shown.new (R.state report.new) told.new) result }
{
    match shown.end(console) {
        Ok(()) => match put_closing_lines(target, options, kept, names, machine, told, report) {
            Ok(()) => Ok(()),
            Err(Failed) => Err(SinkFault::Report),
        },
        Err(Failed) => {
            let _ = told.end(report);
            Err(SinkFault::Console)
        }
    }
}

// Puts what the report's buffer holds, and the closing lines.
fn put_closing_lines<T: PermTables, const N: usize, R: Sink>(
    target: u64,
    options: Options,
    kept: &Kept,
    names: &[&str],
    machine: &Machine<T, N>,
    told: &mut Tail,
    report: &mut R,
) -> Result<(), Failed>
    requires names { map (λ name. name.now) names.now ≡ kept.now.names }
    requires plan { IsOfPlan kept.now machine.now }
    ensures { Puts (R.state report.old) (R.state report.new)
        (told.old ++ flat_closing kept.now.names (end_of target machine.now.core) options machine.now)
        result }
{
    let end = end_of(target, machine.steps(), machine.all_halted());
    put_closing(
        told,
        report,
        machine,
        names,
        end,
        kept.kind(),
        kept.limit(),
        options,
    )?;
    told.end(report)
}

/// Why a run over a machine of any kind ended that was to reach so many turns: `Halted` where all harts are halted,
/// otherwise
/// `Steps` where the machine made just so many, and otherwise `Schedule`.
pub fn end_of_any(target: u64, machine: &AnyMachine) -> EndState
    ensures { result ≡ end_of target (meaning machine.now).core }
{
    end_of(target, machine.steps(), machine.all_halted())
}

// Why a run ended that was to reach so many turns, by those made and whether all harts are halted.
fn end_of(target: u64, made: u64, halted: bool) -> EndState
    ensures { (c : Core) → made ≡ c.turns → halted ≡ all_halted c → result ≡ end_of target c }
{
    if halted {
        EndState::Halted
    } else if made == target {
        EndState::Steps
    } else {
        EndState::Schedule
    }
}

/// Puts on the dump what is asked of it.
pub(crate) fn put_dump<D: Sink>(
    asked: Option<Dump>,
    kept: &Kept,
    machine: &AnyMachine,
    dump: &mut D,
) -> Result<(), Failed>
    requires { IsOfPlan kept.now (meaning machine.now) }
    ensures { Puts (D.state dump.old) (D.state dump.new)
        (dumped asked kept.now (meaning machine.now)) result }
{
    match asked {
        Some(Dump::Ram) => put_all(dump, ram_bytes(machine)),
        Some(Dump::Snapshot) => write_snapshot(dump, machine, kept),
        None => Ok(()),
    }
}
