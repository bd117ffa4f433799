//! Turns of one hart in a row. While they carry out instructions and no more, the hart runs on in its domain: only the
//! gate at its
//! pc is asked about before each, and inside a window not even that.
ghost use Rattle.std.specs.Prelude.{◌≡◌, ◌↔◌, ◌+◌, ◌-◌, ◌^◌, ◌<◌, ◌≤◌, true};
ghost use Rattle.mx_model.specs.Events.{no_events};
ghost use Rattle.mx_model.specs.Run.{flat_made};
ghost use Rattle.mx_model.specs.declared.values.TurnKind.{TurnKind};
ghost use Rattle.mx_machine.specs.Goings.{kind_of};
ghost use Rattle.mx_machine.specs.Held.{meaning};
ghost use Rattle.mx_machine.specs.Made.{IsMade};
ghost use Rattle.mx_machine.specs.Rows.{RunsTo};
ghost use Rattle.mx_machine.specs.Ties.{Fits, IsWhole, RunsAlive};
ghost use Rattle.mx_machine.specs.Turning.{IsStretch};

use crate::Stretch;
use crate::bare::Bare;
use crate::hart::Progress;
use crate::turns::{Going, clear};
use mx_coherence::spans_are_coherent;
use mx_model::{Events, turns_keep_validity};
use mx_table::PermTables;

/// How many turns of a row are made before a window is looked for, which short rows would not pay back.
const FIRST: u64 = 4;

impl<T: PermTables, const N: usize> Bare<T, N> {
    /// Turns of the hart of that number in a row, at least one and at most so many.
    pub fn run_on(&mut self, hart: u32, most: u64, out: &mut Events) -> Stretch
        requires whole { IsWhole self.old }
        requires some { 1 ≤ most }
        requires few { self.old.steps + most < 2 ^ 64 }
        ensures stretch { IsStretch (meaning self.old) hart most (meaning self.new) out.new result }
        ensures whole { IsWhole self.new }
    {
        turns_keep_validity();
        spans_are_coherent();
        clear(out);
        let room = self.before_last(hart, most);
        let first = room.min(FIRST);
        'turns: for ran in 0..first {
            match self.turn_on(hart, out) {
                Going::On => {}
                Going::Ended(last) => return Stretch { ran, last },
            }
        }
        if let Some(row) = self.more(hart, first, room, out) {
            return row;
        }
        let last = self.step(hart, out);
        Stretch { ran: room, last }
    }

    /// The rest of a row of which some turns were made, up to so many; the row, where one ended it. Where none is left
    /// nothing is done.
    #[inline(always)]
    fn more(&mut self, hart: u32, made: u64, room: u64, out: &mut Events) -> Option<Stretch>
        requires whole { IsWhole self.old }
        requires upto { made ≤ room }
        requires few { self.old.steps + (room - made) < 2 ^ 64 }
        requires alive { made < room → RunsAlive self.old hart }
        requires empty { out.old ≡ no_events }
        ensures row { RunsTo self.old hart made room self.new out.new result }
        ensures whole { IsWhole self.new }
    {
        if made < room {
            self.rest(hart, made, room, out)
        } else {
            None
        }
    }

    /// How many turns before the last of so many a hart makes, if none of them ends its run: all of them where it runs
    /// in a live
    /// domain, and none where it doesn't.
    fn before_last(&self, hart: u32, most: u64) -> u64
        requires whole { IsWhole self.now }
        requires some { 1 ≤ most }
        ensures below { result < most }
        ensures alive { 0 < result → RunsAlive self.now hart }
        ensures all { RunsAlive self.now hart → result + 1 ≡ most }
    {
        if most > 1 && self.runs_alive(hart) {
            most - 1
        } else {
            0
        }
    }

    /// Whether a hart runs in a live domain.
    fn runs_alive(&self, hart: u32) -> bool
        requires whole { IsWhole self.now }
        ensures { (result ≡ true) ↔ RunsAlive self.now hart }
    {
        match self.harts.progress(hart) {
            Progress::Running => !self.is_dead(self.harts.domain(hart)),
            Progress::Waiting => false,
            Progress::Halted(_) => false,
        }
    }

    /// One turn of a hart that runs in a live domain.
    #[inline(always)]
    pub fn turn_on(&mut self, hart: u32, out: &mut Events) -> Going
        requires whole { IsWhole self.old }
        requires alive { RunsAlive self.old hart }
        requires few { self.old.steps < 2 ^ 64 - 1 }
        requires empty { out.old ≡ no_events }
        ensures made { IsMade self.old self.new out.new (kind_of result)
            (flat_made (meaning self.old) hart) }
        ensures fits { Fits self.new }
        ensures on { result ≡ Going.On → RunsAlive self.new hart × (out.new ≡ no_events) }
        ensures ran { kind_of result ≡ TurnKind.Ran → result ≡ Going.On }
    {
        self.steps += 1;
        self.hear(hart);
        let domain = self.harts.domain(hart);
        let pc = self.harts.pc(hart);
        match self.gate(domain, pc) {
            None => self.execute(hart, false, out),
            Some(target) => self.at_gate(hart, target, out),
        }
    }
}
