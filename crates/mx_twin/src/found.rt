//! A turn in two machines that are watched for a domain, and what is known of both after it.
ghost use Rattle.std.specs.Prelude.{◌≡◌, ◌-◌, ◌<◌, ◌^◌, true, length};
ghost use Rattle.mx_model.specs.declared.values.TurnKind.TheVariants as T;
ghost use Rattle.mx_model.specs.Run.{flat_kind, flat_turn};
ghost use Rattle.mx_model.specs.Valid.{IsModule};
ghost use Rattle.mx_any.specs.Machines.{meaning};
ghost use Rattle.mx_touched.specs.Touched.{AreIn};
ghost use Rattle.mx_touched.specs.Pairs.{IsRight, Knows, found_known, found_unknown};
ghost use Rattle.mx_twin.specs.Told.{told};
ghost use Rattle.mx_twin.specs.Turns.{AreAlike};

use crate::compare::{same_touched, same_views};
use crate::harts::{any_compared, is_compared, same_hart};
use crate::pair::step_pair;
use crate::reach::{Reach, Touched};
use mx_any::{AnyMachine, any_machine_is_valid};
use mx_model::{Events, TurnKind};
use mx_touched::{turns_leave_the_rest, twins_are_found};

/// What is found after a turn of a hart, of what the turn touched in each machine, where the domain saw the same of
/// both before: `None`
/// where agreement fails, else whether the domain is known to see the same.
fn found_known(
    a: &AnyMachine,
    b: &AnyMachine,
    domain: u32,
    hart: u32,
    first: &Touched,
    second: &Touched,
) -> Option<bool>
    requires alike { AreAlike (meaning a.now) (meaning b.now) }
    requires domain { IsModule (length (meaning a.now).core.modules) domain }
    requires hart { hart < length (meaning a.now).core.harts }
    requires first { AreIn (meaning a.now).core.size (told first.now) }
    requires second { AreIn (meaning a.now).core.size (told second.now) }
    ensures { result
        ≡ found_known domain (meaning a.now) (meaning b.now) hart (told first.now)
        (told second.now) }
{
    if same_touched(a, b, domain, first) && same_touched(a, b, domain, second) {
        if !is_compared(a, b, domain, hart) || same_hart(a, b, hart) {
            Some(true)
        } else {
            None
        }
    } else if any_compared(a, b, domain) {
        None
    } else {
        Some(false)
    }
}

/// The same where no hart was compared before.
fn found_unknown(a: &AnyMachine, b: &AnyMachine, domain: u32, hart: u32) -> Option<bool>
    requires alike { AreAlike (meaning a.now) (meaning b.now) }
    requires domain { IsModule (length (meaning a.now).core.modules) domain }
    requires hart { hart < length (meaning a.now).core.harts }
    ensures { result ≡ found_unknown domain (meaning a.now) (meaning b.now) hart }
{
    if !is_compared(a, b, domain, hart) {
        Some(false)
    } else if same_hart(a, b, hart) && same_views(a, b, domain) {
        Some(true)
    } else {
        None
    }
}

/// Whether a turn of a hart was one after which nothing need be compared: the hart was compared before it, and the turn
/// just carried out
/// an instruction.
fn is_free(compared: bool, kind: TurnKind) -> bool
    ensures { result ≡ true → (compared ≡ true) × (kind ≡ T.Ran) }
{
    match kind {
        TurnKind::Ran => compared,
        _ => false,
    }
}

/// One turn of a hart in both machines, what it was in the first, and what is known after it: `None` where agreement
/// fails for the
/// domain, else whether the domain is known to see the same of both. Where it isn't no hart is in the domain.
pub(crate) fn step_watched(
    a: &mut AnyMachine,
    b: &mut AnyMachine,
    domain: u32,
    hart: u32,
    known: bool,
    left: &mut Events,
    right: &mut Events,
) -> (TurnKind, Option<bool>)
    requires alike { AreAlike (meaning a.old) (meaning b.old) }
    requires domain { IsModule (length (meaning a.old).core.modules) domain }
    requires hart { hart < length (meaning a.old).core.harts }
    requires few_first { (meaning a.old).core.turns < 2 ^ 64 - 1 }
    requires few_second { (meaning b.old).core.turns < 2 ^ 64 - 1 }
    requires knows { Knows domain (meaning a.old) (meaning b.old) known }
    ensures first { meaning a.new ≡ flat_turn (meaning a.old) hart }
    ensures second { meaning b.new ≡ flat_turn (meaning b.old) hart }
    ensures kind { result.0 ≡ flat_kind (meaning a.old) hart }
    ensures right { IsRight domain (meaning a.new) (meaning b.new) result.1 }
{
    twins_are_found();
    turns_leave_the_rest();
    any_machine_is_valid(a);
    any_machine_is_valid(b);
    let compared = is_compared(a, b, domain, hart);
    let first = Reach::before(a, hart);
    let second = Reach::before(b, hart);
    let kinds = step_pair(a, b, hart, left, right);
    if is_free(compared, kinds.0) {
        return (kinds.0, Some(true));
    }
    let touched = first.touched(kinds.0);
    let other = second.touched(kinds.1);
    if known {
        return (kinds.0, found_known(a, b, domain, hart, &touched, &other));
    }
    (kinds.0, found_unknown(a, b, domain, hart))
}
