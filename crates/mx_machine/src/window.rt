//! Turns inside a window: where the fetch is at hand and no gate stands, a turn is a fetch and its instruction.
ghost use Rattle.std.specs.Prelude.{◌≡◌, ◌+◌, ◌-◌, ◌*◌, ◌%◌, ◌^◌, ◌<◌, ◌≤◌, length};
ghost use Rattle.mx_words.specs.Ranges.{covers};
ghost use Rattle.mx_table.specs.Tables.{IsDomain};
ghost use Rattle.mx_core.specs.Bus.{load_at};
ghost use Rattle.mx_model.specs.Events.{no_events};
ghost use Rattle.mx_machine.specs.Bus.{IsInRam};
ghost use Rattle.mx_machine.specs.Harts.{hart_among};
ghost use Rattle.mx_machine.specs.Rows.{IsQuickTurn};
ghost use Rattle.mx_machine.specs.Ties.{Fits, IsWhole, RunsAlive};
ghost use Rattle.mx_machine.specs.Windows.{IsTurnOn, IsWindow};

use crate::bare::Bare;
use crate::turns::Going;
use mx_core::Outcome;
use mx_model::Events;
use mx_table::PermTables;
use mx_words::{Access, RAM_BASE, word_of};

/// The addresses `start` to `start + bytes - 1`.
#[derive(Clone, Copy)]
pub struct Window {
    pub start: u32,
    pub bytes: u32,
}

/// No address.
pub const SHUT: Window = Window { start: 0, bytes: 0 };

impl Window {
    /// Whether an address lies in the window.
    #[inline(always)]
    fn holds(&self, addr: u32) -> bool
        requires { self.now.start + self.now.bytes ≤ 2 ^ 32 }
        ensures { result ≡ covers self.now.start self.now.bytes addr }
    {
        addr.wrapping_sub(self.start) < self.bytes
    }
}

impl<T: PermTables, const N: usize> Bare<T, N> {
    /// The instruction at the hart's pc, where the hart stands in the window and its row carries the instruction out;
    /// nothing where not.
    /// The turn isn't counted.
    #[inline(always)]
    pub fn quick(&mut self, hart: u32, window: &Window) -> Option<Outcome>
        requires fits { Fits self.old }
        requires alive { RunsAlive self.old hart }
        requires domain { IsDomain self.old.parts.maps (hart_among self.old.harts hart).domain }
        requires aligned { (hart_among self.old.harts hart).pc % 4 ≡ 0 }
        requires window { IsWindow self.old hart window.now }
        ensures { IsQuickTurn self.old hart result self.new }
    {
        let pc = self.harts.pc(hart);
        if !window.holds(pc) {
            return None;
        }
        let word = self.word(pc);
        match self.harts.inst(pc, word) {
            None => None,
            Some(inst) => Some(self.carry_out(hart, inst)),
        }
    }

    /// The word at an address in RAM.
    #[inline(always)]
    fn word(&self, addr: u32) -> u32
        requires ram { length self.now.parts.ram ≡ 4 * self.now.parts.size }
        requires inside { IsInRam self.now.parts.size addr }
        requires aligned { addr % 4 ≡ 0 }
        ensures { result ≡ load_at self.now.parts.ram addr 4 }
    {
        self.bus.supervisor.ram.load(addr, 4)
    }

    /// Any turn, as it is made outside a window.
    #[inline(never)]
    pub fn turn_outside(&mut self, hart: u32, window: &mut Window, out: &mut Events) -> Going
        requires whole { IsWhole self.old }
        requires alive { RunsAlive self.old hart }
        requires few { self.old.steps < 2 ^ 64 - 1 }
        requires empty { out.old ≡ no_events }
        ensures { IsTurnOn self.old hart self.new out.new result window.new }
    {
        let going = self.turn_on(hart, out);
        *window = self.window_after(hart, going);
        going
    }

    /// A window of a hart after its turn.
    fn window_after(&self, hart: u32, going: Going) -> Window
        requires fits { Fits self.now }
        requires on { going ≡ Going.On → RunsAlive self.now hart }
        ensures { going ≡ Going.On → IsWindow self.now hart result }
    {
        match going {
            Going::On => self.window(hart),
            Going::Ended(_) => SHUT,
        }
    }

    /// A window of a hart round its pc: the words of its place 0's span that may be executed, between the gates of its
    /// domain.
    fn window(&self, hart: u32) -> Window
        requires fits { Fits self.now }
        requires there { hart < length self.now.harts }
        ensures { IsWindow self.now hart result }
    {
        if self.waiting {
            return SHUT;
        }
        let supervisor = &self.bus.supervisor;
        let words = supervisor.checker.tables().words();
        let Some(word) = word_of(self.harts.pc(hart), words) else {
            return SHUT;
        };
        let Some(span) = supervisor.checker.at_hand(hart, word) else {
            return SHUT;
        };
        if !span.perm.allows(Access::Execute) {
            return SHUT;
        }
        let (first, end) = supervisor.gates.clear(self.harts.domain(hart), word);
        let first = first.max(span.first);
        let end = end.min(span.first.saturating_add(span.count)).min(words);
        if first < end {
            Window {
                start: RAM_BASE + 4 * first,
                bytes: 4 * (end - first),
            }
        } else {
            SHUT
        }
    }
}
