//! The rest of a row of turns, by windows: inside one the turns are made first and counted together.
ghost use Rattle.std.specs.Prelude.{◌≡◌, ◌≢◌, ℕ, ◌+◌, ◌-◌, ◌^◌, ◌<◌, ◌≤◌, IfSome};
ghost use Rattle.mx_core.specs.Exec.{HasCause};
ghost use Rattle.mx_model.specs.Events.{no_events};
ghost use Rattle.mx_model.specs.Run.{flat_made};
ghost use Rattle.mx_model.specs.declared.values.TurnKind.{TurnKind};
ghost use Rattle.mx_machine.specs.Held.{Held, meaning};
ghost use Rattle.mx_machine.specs.Made.{IsMade};
ghost use Rattle.mx_machine.specs.Rows.{EndsBy, IsRow, RunsTo};
ghost use Rattle.mx_machine.specs.Steps.{Stops};
ghost use Rattle.mx_machine.specs.Ties.{Fits, IsWhole, MayRun, RunsAlive};
ghost use Rattle.mx_machine.specs.Windows.{IsWindow};

use crate::Stretch;
use crate::bare::Bare;
use crate::turns::Going;
use crate::window::{SHUT, Window};
use mx_coherence::spans_are_coherent;
use mx_core::Outcome;
use mx_model::{Events, TurnKind, turns_keep_validity};
use mx_table::PermTables;

/// How many turns were made inside a window, and what the instruction of one more answered that ended them, if one did.
#[derive(Clone, Copy)]
pub struct Row {
    pub made: u64,
    pub end: Option<Outcome>,
}

impl<T: PermTables, const N: usize> Bare<T, N> {
    /// The rest of a row of which some turns were made, up to so many; the row, where one ended it.
    // A function of its own, so that the first turns of each row are laid out for themselves.
    #[inline(never)]
    pub fn rest(&mut self, hart: u32, made: u64, room: u64, out: &mut Events) -> Option<Stretch>
        requires whole { IsWhole self.old }
        requires upto { made ≤ room }
        requires few { self.old.steps + (room - made) < 2 ^ 64 }
        requires alive { made < room → RunsAlive self.old hart }
        requires empty { out.old ≡ no_events }
        ensures row { RunsTo self.old hart made room self.new out.new result }
        ensures whole { IsWhole self.new }
    {
        turns_keep_validity();
        spans_are_coherent();
        let mut window = SHUT;
        let mut ran = made;
        'rows: while ran < room {
            let row = self.row_inside(hart, &window, room - ran);
            ran += row.made;
            if let Some(outcome) = row.end {
                let last = self.stop(hart, outcome, out);
                return Some(Stretch { ran, last });
            }
            if ran == room {
                return None;
            }
            match self.turn_outside(hart, &mut window, out) {
                Going::On => ran += 1,
                Going::Ended(last) => return Some(Stretch { ran, last }),
            }
        }
        None
    }

    /// Turns of a hart that runs in a live domain, inside a window, at most so many: until the hart stands outside, its
    /// row doesn't carry
    /// the instruction out, or the instruction doesn't just go on.
    #[inline(always)]
    fn row_inside(&mut self, hart: u32, window: &Window, most: u64) -> Row
        requires whole { IsWhole self.old }
        requires alive { RunsAlive self.old hart }
        requires few { self.old.steps + most < 2 ^ 64 }
        requires window { IsWindow self.old hart window.now }
        ensures row { IsRow self.old hart result.made window.now self.new result.end }
        ensures upto { result.made ≤ most }
        ensures left { IfSome result.end (λ o. result.made < most) }
        ensures cause { IfSome result.end HasCause }
    {
        turns_keep_validity();
        spans_are_coherent();
        'turns: for made in 0..most {
            match self.quick(hart, window) {
                None => {
                    self.tally(hart, made);
                    return Row { made, end: None };
                }
                Some(outcome) => match outcome {
                    Outcome::Next(_) => {}
                    _ => {
                        self.tally(hart, made + 1);
                        return Row {
                            made,
                            end: Some(outcome),
                        };
                    }
                },
            }
        }
        self.tally(hart, most);
        Row {
            made: most,
            end: None,
        }
    }

    /// What follows an instruction that answered but to go on, where no JAL or JALR is to return.
    fn stop(&mut self, hart: u32, outcome: Outcome, out: &mut Events) -> TurnKind
        requires run { MayRun self.old hart }
        requires cause { HasCause outcome }
        requires empty { out.old ≡ no_events }
        ensures made { (m : Held) → EndsBy m hart outcome self.old →
            IsMade m self.new out.new result (flat_made (meaning m) hart) }
        ensures fits { Fits self.new }
        ensures ended { Stops outcome → result ≢ TurnKind.Ran }
    {
        match outcome {
            Outcome::Next(_) => TurnKind::Ran,
            Outcome::Trap(fault) => self.trap(hart, fault.cause, fault.value, out),
            Outcome::Call => self.ask(hart, out),
            Outcome::Back { rd, target } => self.go_back(hart, rd, target, out),
        }
    }
}
