//! The loop of a run: its turns, a row of one hart's at a time. No call takes memory.

ghost use Rattle.std.specs.Prelude.{◌≡◌, ℕ, ◌+◌, ◌-◌, ◌^◌, ◌<◌, ◌≤◌, false, List, IfOk};
ghost use Rattle.mx_model.specs.Run.{Schedule as Turns, all_halted};
ghost use Rattle.mx_model.specs.State.{State, Flat};
ghost use Rattle.mx_turns.specs.Rows.{EndsOrStops, StandsOrStops};
ghost use Rattle.mx_turns.specs.Running.{IsLater, IsPace, IsRow, Places};

use crate::fault::SinkFault;
use crate::pace::{Pace, later, next_hart};
use mx_model::Events;
use mx_report::Tail;

/// A row of turns that was made.
#[derive(Clone, Copy)]
pub(crate) struct Row {
    /// How many.
    pub(crate) turns: u64,
    /// Whether all harts are halted.
    pub(crate) halted: bool,
}

/// What makes turns of a machine, and tells what they add.
pub(crate) trait Rows<M, C, R> {
    ghost use Rattle.mx_turns.specs.declared.fault.SinkFault.{SinkFault};

    // The flat state of a machine.
    ghost means: { M → Flat };

    // What holds after so many turns of a run from a state, the texts of which began at these places.
    ghost Stands: { Self → Turns → ℕ → State → Places → M → List ℕ → C → List ℕ → R → Type 0 };

    // What holds where a sink failed at the turn after so many.
    ghost Stops: { Self → Turns → ℕ → State → Places → M → List ℕ → C → List ℕ → R → SinkFault →
        Type 0 };

    /// Makes turns of a hart, at least one and at most so many, and tells what they add. `events` holds what the last
    /// of them adds.
    fn make_row(
        &self,
        hart: u32,
        most: u64,
        machine: &mut M,
        events: &mut Events,
        shown: &mut Tail,
        console: &mut C,
        told: &mut Tail,
        report: &mut R,
    ) -> Result<Row, SinkFault>
        requires some { 1 ≤ most }
        requires few { (means machine.old).core.turns + most < 2 ^ 64 - 1 }
        ensures some { IfOk result (λ row. 1 ≤ row.turns) }
        ensures later { (n : ℕ) × (n ≤ most) × IsLater (means machine.old) n (means machine.new)
            × IfOk result (λ row. row.turns ≡ n) }
        ensures halted { all_halted (means machine.old).core ≡ false →
            IfOk result (λ row. row.halted ≡ all_halted (means machine.new).core) }
        ensures stands { (p : Turns) (made : ℕ) (s : State) (before : Places) →
            all_halted (means machine.old).core ≡ false →
            IsRow p (means machine.old).core most hart most →
            Stands self.now p made s before machine.old shown.old console.old told.old report.old →
            StandsOrStops (λ n. Stands self.now p n s before
            machine.new shown.new console.new told.new report.new)
            (λ n. Stops self.now p n s before
            machine.new shown.new console.new told.new report.new) made most result };
}

/// Makes at most so many turns, until the schedule ends or all harts are halted. Some hart isn't halted at first.
pub(crate) fn make_rows<M, C, R, X: Rows<M, C, R>>(
    steps: u64,
    start: Pace<'_>,
    rows: &X,
    machine: &mut M,
    shown: &mut Tail,
    console: &mut C,
    told: &mut Tail,
    report: &mut R,
) -> Result<(), SinkFault>
    requires few { (X.means machine.old).core.turns + steps < 2 ^ 64 - 1 }
    requires going { all_halted (X.means machine.old).core ≡ false }
    requires pace { (p : Turns) × IsPace p (X.means machine.old).core start }
    ensures later { (n : ℕ) × (n ≤ steps) × IsLater (X.means machine.old) n (X.means machine.new) }
    ensures runs { (p : Turns) (made : ℕ) (s : State) (before : Places) →
        IsPace p (X.means machine.old).core start.entry →
        X.Stands rows.now p made s before machine.old shown.old console.old told.old report.old →
        EndsOrStops (λ n. X.Stands rows.now p n s before
        machine.new shown.new console.new told.new report.new)
        (λ n. X.Stops rows.now p n s before
        machine.new shown.new console.new told.new report.new) p made steps (X.means machine.new).core
        result }
{
    let mut events = Events::new();
    let mut pace = start;
    let mut made = 0;
    'turns: while made < steps {
        let Some((hart, most)) = next_hart(&pace, steps - made) else {
            return Ok(());
        };
        let row = rows.make_row(
            hart,
            most,
            machine,
            &mut events,
            shown,
            console,
            told,
            report,
        )?;
        made += row.turns;
        pace = later(pace, row.turns);
        if row.halted {
            return Ok(());
        }
    }
    Ok(())
}
