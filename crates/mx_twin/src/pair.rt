//! A turn of one hart in two machines.
ghost use Rattle.std.specs.Prelude.{◌≡◌, ◌-◌, ◌^◌, ◌<◌};
ghost use Rattle.mx_machine.specs.Turning.{IsTold, IsTurn};
ghost use Rattle.mx_model.specs.Agreement.{agree};
ghost use Rattle.mx_model.specs.Run.{flat_kind, flat_made, flat_turn};
ghost use Rattle.mx_model.specs.State.{State, flat};
ghost use Rattle.mx_laws.specs.Twins.{IsRunning};
ghost use Rattle.mx_any.specs.Machines.{meaning};
ghost use Rattle.mx_twin.specs.Turns.{AreAlike, AreTwinTurns};

use mx_any::{AnyMachine, any_machine_is_valid};
use mx_laws::turns_of_twins;
use mx_model::{Events, TurnKind};

/// One turn of the hart of that number in both machines, and what it was in each. What stood in `left` and `right` is
/// dropped; what the
/// turns append is put there. The machines have as many harts, modules and words, and fewer than 2^64 - 1 turns were
/// made of each.
///
/// Isolation: where the machines agree for the hart and it runs, both meet the same border. Where that is nothing both
/// turns just carry
/// out an instruction, with the same store, and the machines agree for the hart afterwards; else neither does.
pub fn step_pair(
    a: &mut AnyMachine,
    b: &mut AnyMachine,
    hart: u32,
    left: &mut Events,
    right: &mut Events,
) -> (TurnKind, TurnKind)
    requires alike { AreAlike (meaning a.old) (meaning b.old) }
    requires few_first { (meaning a.old).core.turns < 2 ^ 64 - 1 }
    requires few_second { (meaning b.old).core.turns < 2 ^ 64 - 1 }
    ensures first { meaning a.new ≡ flat_turn (meaning a.old) hart }
    ensures second { meaning b.new ≡ flat_turn (meaning b.old) hart }
    ensures left { IsTold (flat_made (meaning a.old) hart) left.new }
    ensures right { IsTold (flat_made (meaning b.old) hart) right.new }
    ensures first_kind { result.0 ≡ flat_kind (meaning a.old) hart }
    ensures second_kind { result.1 ≡ flat_kind (meaning b.old) hart }
    ensures first_state { (s : State) → meaning a.old ≡ flat s →
        IsTurn s hart (meaning a.new) left.new result.0 }
    ensures second_state { (t : State) → meaning b.old ≡ flat t →
        IsTurn t hart (meaning b.new) right.new result.1 }
    ensures twins { (s t : State) → meaning a.old ≡ flat s → meaning b.old ≡ flat t →
        agree s t hart → IsRunning s.core hart → AreTwinTurns s t hart result.0 result.1 }
{
    turns_of_twins();
    any_machine_is_valid(a);
    any_machine_is_valid(b);
    let first = a.step(hart, left);
    let second = b.step(hart, right);
    (first, second)
}
