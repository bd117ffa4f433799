//! A twin run: the first turn after which two machines don't agree for a domain.
ghost use Rattle.std.specs.Prelude.{◌≡◌, ◌+◌, ◌<◌, ◌≤◌, ◌^◌, length};
ghost use Rattle.mx_model.specs.Valid.{IsModule};
ghost use Rattle.mx_any.specs.Machines.{meaning};
ghost use Rattle.mx_twin.specs.Turns.{AreAlike};
ghost use Rattle.mx_twin.specs.Twins.{IsAtBorder, twins};

use crate::TwinEnd;
use crate::compare::fails;
use crate::found::step_watched;
use crate::harts::any_compared;
use mx_any::{AnyMachine, any_machine_is_valid};
use mx_model::{Events, TurnKind};
use mx_touched::twins_go_on;

/// Watches two machines for a domain over so many turns of each, counted from 1. Turn s is of hart ((s - 1) / quantum)
/// mod the number of
/// harts in both. Agreement fails where it does so for a hart that in either machine isn't halted and is in the domain.
/// The answer is
/// the first turn after which it fails, with its hart and its kind in the first machine; step 0, hart 0 and idle where
/// it fails at the
/// start; and that they agree where it never does.
///
/// The machines have as many harts, modules and words, and fewer than 2^64 turns are made of each with these. The
/// domain is a module's,
/// and the quantum at least 1. Where all harts of both are halted the answer comes at once.
///
/// Isolation: where it fails after a turn of a hart that was so before it, that turn was neither idle nor just carried
/// out an instruction.
pub fn run_twin(
    a: &mut AnyMachine,
    b: &mut AnyMachine,
    domain: u32,
    quantum: u32,
    steps: u64,
) -> TwinEnd
    requires alike { AreAlike (meaning a.old) (meaning b.old) }
    requires domain { IsModule (length (meaning a.old).core.modules) domain }
    requires quantum { 1 ≤ quantum }
    requires few_first { (meaning a.old).core.turns + steps < 2 ^ 64 }
    requires few_second { (meaning b.old).core.turns + steps < 2 ^ 64 }
    ensures answer { result ≡ twins domain quantum steps (meaning a.old) (meaning b.old) }
    ensures border { IsAtBorder domain quantum (meaning a.old) (meaning b.old) result }
{
    twins_go_on();
    any_machine_is_valid(a);
    any_machine_is_valid(b);
    if fails(a, b, domain) {
        return TwinEnd::Ended {
            step: 0,
            hart: 0,
            kind: TurnKind::Idle,
        };
    }
    let harts = a.harts();
    let mut known = any_compared(a, b, domain);
    let mut left = Events::new();
    let mut right = Events::new();
    let mut made = 0;
    'turns: while made < steps {
        if a.all_halted() && b.all_halted() {
            return TwinEnd::Agreed;
        }
        let hart = (made / quantum as u64 % harts as u64) as u32;
        let (kind, found) = step_watched(a, b, domain, hart, known, &mut left, &mut right);
        made += 1;
        match found {
            Some(still) => known = still,
            None => {
                return TwinEnd::Ended {
                    step: made,
                    hart,
                    kind,
                };
            }
        }
    }
    TwinEnd::Agreed
}
