//! The command.

ghost use Rattle.std.specs.Prelude.{◌≡◌, []};
ghost use Rattle.mx_io.specs.Sink.{Puts};
ghost use Rattle.mx_boot.specs.Boot.{boot_state};
ghost use Rattle.mx_any.specs.Machines.{meaning};
ghost use Rattle.mx_model.specs.State.{flat};
ghost use Rattle.mx_mill.specs.Mill.{Tells, lines_after, mill_text};
ghost use Rattle.mx_mill.specs.Plan.{mill_plan, no_images};

use crate::boots::boot_mill;
use crate::lines::put_lines;
use mx_any::AnyMachine;
use mx_io::{Failed, Sink};
use mx_turns::{Schedule, count_turns};
use std::alloc::Global;
use thiserror::Error;

/// How many turns are made.
const STEPS: u32 = 200_000;

/// Why the lines of a mill weren't put whole.
#[derive(Clone, Copy, PartialEq, Eq, Debug, Drop, Error)]
pub enum MillFault {
    /// The report's sink failed.
    #[error("the report's sink failed")]
    Report,
    /// An allocation was refused. Nothing was put, and no turn was made.
    #[error("no memory for the mill")]
    NoMemory,
}

/// Boots the manifest for a number, makes 200000 turns of it, and puts four lines on the report: how many turns were
/// made, what they
/// would have told, the counts of all harts, and what the tables take (docs/COMMANDS.md, "The mill").
///
/// The text is that of the abstract run for this number, and leaves in one write where the sink takes that at once.
/// Memory can be
/// wanted before the first turn alone.
pub fn mill<R: Sink>(alloc: Global, k: u32, report: &mut R) -> Result<(), MillFault>
    ensures { Tells (mill_text k) (R.state report.old) (R.state report.new) result }
{
    let Ok(mut machine) = boot_mill(alloc, k) else {
        return Err(MillFault::NoMemory);
    };
    let put = run_mill(k, STEPS, &mut machine, report);
    machine.end();
    match put {
        Ok(()) => Ok(()),
        Err(Failed) => Err(MillFault::Report),
    }
}

// Makes so many turns of the machine at boot, and puts the lines.
fn run_mill<R: Sink>(
    k: u32,
    steps: u32,
    machine: &mut AnyMachine,
    report: &mut R,
) -> Result<(), Failed>
    requires { meaning machine.old ≡ flat (boot_state (mill_plan k) no_images []) }
    ensures { Puts (R.state report.old) (R.state report.new) (lines_after steps k) result }
{
    let tally = count_turns(steps, Schedule::Quantum(1), machine);
    put_lines(k, u64::from(steps), tally, machine, report)
}
