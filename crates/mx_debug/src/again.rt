//! Going to a place of the run: on from where a machine stands, or again from the boot.

ghost use Rattle.std.specs.Prelude.{◌≡◌, ◌+◌, ◌-◌, ◌^◌, ◌<◌, ◌≤◌, ℕ, Ok, IfOk};
ghost use Rattle.mx_any.specs.Machines.{meaning};
ghost use Rattle.mx_boot.specs.Boot.{boot_of};
ghost use Rattle.mx_boot.specs.Inputs.{AreInputs};
ghost use Rattle.mx_model.specs.State.{State};
ghost use Rattle.mx_turns.specs.Running.{HasTurns, schedule_of};
ghost use Rattle.mx_debug.specs.Looks.{IsAt};
ghost use Rattle.mx_debug.specs.Session.{Looked};

use crate::search::run_on;
use mx_any::{AnyMachine, any_machine_is_valid};
use mx_boot::boot;
use mx_manifest::Plan;
use mx_model::Events;
use mx_turns::{Schedule, begin, later, next_hart};
use mx_words::{Blob, NoMemory};
use std::alloc::Global;

/// What a machine is booted of: a plan, and the images and the inputs of its modules.
#[derive(Clone, Copy)]
pub struct Origin<'a> {
    /// The plan.
    pub plan: &'a Plan,
    /// The images, one for each module.
    pub images: &'a [Blob],
    /// The inputs, one for each module.
    pub inputs: &'a [Blob],
}

/// Makes so many turns, or fewer where the run ends sooner.
pub fn run_on_by(machine: &mut AnyMachine, schedule: Schedule<'_>, turns: u64)
    requires few { (meaning machine.old).core.turns + turns < 2 ^ 64 - 1 }
    requires quantum { HasTurns schedule }
    ensures at { (q : Looked) (k : ℕ) → q.schedule ≡ schedule_of schedule.entry →
        IsAt q k (meaning machine.old) → IsAt q (k + turns) (meaning machine.new) }
    ensures count { (meaning machine.new).core.turns ≤ (meaning machine.old).core.turns + turns }
{
    any_machine_is_valid(machine);
    let mut events = Events::new();
    let mut pace = begin(schedule, machine.harts(), machine.steps());
    let mut made = 0;
    'turns: while made < turns {
        if machine.all_halted() {
            return;
        }
        let Some((hart, row)) = next_hart(&pace, turns - made) else {
            return;
        };
        let stretch = run_on(machine, hart, row, &mut events);
        made += stretch.ran + 1;
        pace = later(pace, stretch.ran + 1);
    }
}

/// The machine of a run after so many turns, or after all of them where it ends sooner, booted again. Where memory is
/// wanting there
/// is none; a plan that booted once has no other refusal.
pub fn machine_at(
    alloc: Global,
    origin: &Origin<'_>,
    schedule: Schedule<'_>,
    turns: u64,
) -> Result<AnyMachine, NoMemory>
    requires inputs { AreInputs origin.now.plan.now origin.now.inputs.now }
    requires boots { (s : State) ×
        (boot_of origin.now.plan.now origin.now.images.now origin.now.inputs.now ≡ Ok s) }
    requires few { turns < 2 ^ 64 - 1 }
    requires quantum { HasTurns schedule }
    ensures at { (q : Looked) → boot_of origin.now.plan.now origin.now.images.now origin.now.inputs.now ≡ Ok q.start →
        q.schedule ≡ schedule_of schedule.entry → IfOk result (λ m. IsAt q turns (meaning m)) }
    ensures few { IfOk result (λ m. (meaning m).core.turns ≤ turns) }
{
    match boot(alloc, origin.plan, origin.images, origin.inputs) {
        Ok(mut machine) => {
            run_on_by(&mut machine, schedule, turns);
            Ok(machine)
        }
        Err(_) => Err(NoMemory),
    }
}
