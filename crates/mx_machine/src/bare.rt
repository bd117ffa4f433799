//! What a machine holds, and the parts of a turn, each as one step of it.
ghost use Rattle.std.specs.Prelude.{◌≡◌, ℕ, ◌+◌, ◌%◌, ◌^◌, ◌<◌, ◌≤◌, ◌⊎◌, ◌*◌, true, false, length, slice_index_or};
ghost use Rattle.std.specs.Prelude.{Some, None};
ghost use Rattle.mx_words.specs.Announced.{is_announced};
ghost use Rattle.mx_words.specs.Ranges.{most_words};
ghost use Rattle.mx_words.specs.Limits.{most_frames};
ghost use Rattle.mx_table.specs.Tables.{IsDomain};
ghost use Rattle.mx_check.specs.Calls.{is_ready};
ghost use Rattle.mx_check.specs.Conditions.{HasHeardAll, IsAtHand, MayLook, MayAnnounce, IsWithin};
ghost use Rattle.mx_check.specs.Harts.{kept_at, announced};
ghost use Rattle.mx_isa.specs.Ranges.{IsValid as IsInst};
ghost use Rattle.mx_core.specs.Bus.{load_at};
ghost use Rattle.mx_core.specs.Exec.{HasCause};
ghost use Rattle.mx_core.specs.Memo.{quick};
ghost use Rattle.mx_model.specs.Effect.{effect};
ghost use Rattle.mx_model.specs.declared.values.Note.TheVariants as Notes;
ghost use Rattle.mx_supervisor.specs.Parts.{AreJoined, IsSound};
ghost use Rattle.mx_supervisor.specs.Served.{range_of};
ghost use Rattle.mx_machine.specs.Actions.{after_instruction, after_unfetched, crossed, effect_for, halted_first};
ghost use Rattle.mx_machine.specs.Actions.{fallen, heard, killed, outcome_for, returned, with_kept, with_step};
ghost use Rattle.mx_machine.specs.AtGate.{gate_here};
ghost use Rattle.mx_machine.specs.Halting.{halted_at};
ghost use Rattle.mx_machine.specs.Harts.{hart_among, is_halted};
ghost use Rattle.mx_machine.specs.Held.{area_of};
ghost use Rattle.mx_machine.specs.Rows.{NamesOwn, tallied};

use crate::Stacks;
use crate::bus::HartBus;
use crate::harts::Harts;
use mx_core::Outcome;
use mx_isa::Inst;
use mx_model::{Call, Fault, Note};
use mx_table::PermTables;
use mx_words::{MOST_DOMAINS, word_of};
use std::marker::Model;

/// The cause of a fault in a dead domain, which kills none.
pub const DEAD: u32 = 20;

/// The supervisor with the bus before it, the harts, the modules' stack areas, by number which domains are dead, the
/// number of turns made,
/// and whether some hart may wait.
#[derive(Drop)]
pub struct Bare<T: PermTables, const N: usize> {
    pub bus: HartBus<T, N>,
    pub harts: Harts,
    pub stacks: Stacks,
    pub dead: [bool; MOST_DOMAINS],
    pub steps: u64,
    pub waiting: bool,
}

impl<T: PermTables, const N: usize> Model for Bare<T, N> {
    ghost use Rattle.mx_machine.specs.Held.{Held};

    ghost Value = { Held };

    ghost use Rattle.mx_supervisor.specs.Parts.{parts_of};

    ghost view = { λ b. record {
      parts = parts_of T.PermTables b.bus.supervisor;
      harts = b.harts;
      stacks = b.stacks;
      dead = b.dead;
      steps = b.steps;
      waiting = b.waiting;
    } };
}

impl<T: PermTables, const N: usize> Bare<T, N> {
    /// The target of the gate that stands for a domain at an address.
    pub fn gate(&self, domain: u32, pc: u32) -> Option<u32>
        requires { self.now.parts.size ≤ most_words }
        ensures { result ≡ gate_here self.now domain pc }
    {
        let supervisor = &self.bus.supervisor;
        match word_of(pc, supervisor.checker.tables().words()) {
            Some(word) => supervisor.gates.target(domain, word),
            None => None,
        }
    }

    /// Whether a domain is dead.
    pub fn is_dead(&self, domain: u32) -> bool
        ensures { result ≡ slice_index_or self.now.dead domain false }
    {
        match self.dead.get(domain as usize) {
            Some(dead) => *dead,
            None => false,
        }
    }

    /// Lets the hart hear the others' calls. Where no hart waits there is none.
    #[inline(always)]
    pub fn hear(&mut self, hart: u32)
        requires hart { hart < length self.old.parts.harts }
        requires running { (kept_at self.old.parts.harts hart).halted ≡ false }
        requires quiet { self.old.waiting ≡ false → (i : ℕ) →
            (kept_at self.old.parts.harts i).flight ≡ None }
        ensures after { self.new ≡ heard hart self.old }
        ensures all { HasHeardAll hart self.new.parts.harts }
    {
        if self.waiting {
            self.bus.supervisor.checker.hear(hart);
        }
    }

    /// Carries out the instruction at the hart's pc.
    #[inline(always)]
    pub fn instruct(&mut self, hart: u32, returns: bool) -> Outcome
        requires sound { IsSound self.old.parts }
        requires there { hart < length self.old.harts }
        requires look { MayLook hart (hart_among self.old.harts hart).domain self.old.parts.harts }
        requires domain { IsDomain self.old.parts.maps (hart_among self.old.harts hart).domain }
        requires aligned { (hart_among self.old.harts hart).pc % 4 ≡ 0 }
        ensures outcome { result ≡ outcome_for self.old hart returns }
        ensures after { self.new ≡ after_instruction hart returns self.old }
        ensures cause { HasCause result }
    {
        self.bus.hart = hart;
        self.bus.domain = self.harts.domain(hart);
        self.harts.instruct(hart, &mut self.bus, returns)
    }

    /// Carries out an instruction whose fetch at the hart's pc is at hand, and isn't counted. It isn't at a return
    /// gate.
    #[inline(always)]
    pub fn carry_out(&mut self, hart: u32, inst: Inst) -> Outcome
        requires sound { IsSound self.old.parts }
        requires there { hart < length self.old.harts }
        requires look { MayLook hart (hart_among self.old.harts hart).domain self.old.parts.harts }
        requires domain { IsDomain self.old.parts.maps (hart_among self.old.harts hart).domain }
        requires aligned { (hart_among self.old.harts hart).pc % 4 ≡ 0 }
        requires at_hand { IsAtHand self.old.parts.size (kept_at self.old.parts.harts hart).cache
            (hart_among self.old.harts hart).pc }
        requires quick { quick (load_at self.old.parts.ram (hart_among self.old.harts hart).pc 4)
            ≡ Some inst }
        requires inst { IsInst inst }
        ensures outcome { result ≡ outcome_for self.old hart false }
        ensures after { self.new ≡ after_unfetched hart self.old }
        ensures cause { HasCause result }
        ensures effect { effect_for self.old (hart_among self.old.harts hart)
            ≡ effect inst (hart_among self.old.harts hart).regs
            (hart_among self.old.harts hart).pc }
    {
        let pc = self.harts.pc(hart);
        self.bus.hart = hart;
        self.bus.domain = self.harts.domain(hart);
        self.bus.known(pc);
        self.harts.carry_out(hart, &mut self.bus, inst)
    }

    /// Counts so many turns of a hart, and the fetches of their instructions, which its place 0 answered.
    #[inline(always)]
    pub fn tally(&mut self, hart: u32, turns: u64)
        requires there { hart < length self.old.harts }
        requires kept { hart < length self.old.parts.harts }
        requires own { NamesOwn self.old hart }
        requires few { self.old.steps + turns < 2 ^ 64 }
        ensures { self.new ≡ tallied hart turns self.old }
    {
        if turns == 0 {
            return;
        }
        self.tally_some(hart, turns);
    }

    /// As `tally`.
    // Never inlined: it comes once in a row, and the turns before it want the registers.
    #[inline(never)]
    fn tally_some(&mut self, hart: u32, turns: u64)
        requires there { hart < length self.old.harts }
        requires kept { hart < length self.old.parts.harts }
        requires own { NamesOwn self.old hart }
        requires few { self.old.steps + turns < 2 ^ 64 }
        ensures { self.new ≡ tallied hart turns self.old }
    {
        self.steps += turns;
        let domain = self.harts.domain(hart);
        self.bus
            .supervisor
            .checker
            .count_fetches(hart, domain, turns);
    }

    /// Makes a killing domain dead after a fault by another cause than 20.
    pub fn kill(&mut self, domain: u32, cause: u32)
        requires domain { 1 ≤ domain }
        requires few { domain < length self.old.dead }
        ensures { self.new ≡ killed domain cause self.old }
    {
        if self.stacks.area(domain).kills && cause != DEAD {
            self.dead[domain as usize] = true;
        }
    }

    /// After a fault, gives up the hart's top frame; without a frame the hart is halted.
    pub fn fall(&mut self, hart: u32, cause: u32)
        requires there { hart < length self.old.harts }
        requires kept { hart < length self.old.parts.harts }
        requires free { (kept_at self.old.parts.harts hart).flight ≡ None }
        requires cause { cause < 256 }
        ensures { self.new ≡ fallen hart cause self.old }
    {
        if self.harts.give_up(hart, cause) {
            self.bus.supervisor.checker.leave_domain(hart);
        } else {
            self.bus.supervisor.checker.halt(hart);
        }
    }

    /// Pushes a frame and enters a domain.
    pub fn enter(&mut self, hart: u32, target: u32)
        requires there { hart < length self.old.harts }
        requires kept { hart < length self.old.parts.harts }
        requires room { length (hart_among self.old.harts hart).frames < most_frames }
        requires target { 1 ≤ target }
        requires area { ((area_of self.old.stacks target).words ≡ 0)
            ⊎ ((area_of self.old.stacks target).first
            + (area_of self.old.stacks target).words * (hart + 1) ≤ most_words) }
        ensures { self.new ≡ crossed hart target self.old }
    {
        let own = self.stacks.behind(target, hart);
        let stack = self.harts.stack_in(hart, target, own);
        self.harts.enter(hart, target, stack);
        self.bus.supervisor.checker.leave_domain(hart);
    }

    /// Gives up the top frame at a return.
    pub fn leave(&mut self, hart: u32, rd: u32)
        requires there { hart < length self.old.harts }
        requires kept { hart < length self.old.parts.harts }
        requires rd { rd < 32 }
        ensures { self.new ≡ returned hart rd self.old }
    {
        self.harts.go_back(hart, rd);
        self.bus.supervisor.checker.leave_domain(hart);
    }

    /// Announces the hart's call. Whether it may take effect at once.
    pub fn announce(&mut self, hart: u32, call: &Call) -> bool
        requires joined { AreJoined self.old.parts }
        requires announced { is_announced call.now.number ≡ true }
        requires domain { IsDomain self.old.parts.maps call.now.domain }
        requires may { MayAnnounce hart self.old.parts.harts }
        ensures after { self.new
            ≡ with_kept hart (announced hart
            (range_of self.old.parts call.now).0 (range_of self.old.parts call.now).1) self.old }
        ensures ready { result ≡ is_ready hart self.new.parts.harts }
    {
        let (first, count) = self.bus.supervisor.announced(call);
        self.bus.supervisor.checker.announce(hart, first, count);
        self.bus.supervisor.checker.ready(hart)
    }

    /// The note of a fault of the hart.
    pub fn fault(&self, hart: u32, fault: Fault) -> Note
        requires { hart < length self.now.harts }
        ensures { result
            ≡ Notes.Fault self.now.steps hart (hart_among self.now.harts hart).domain
            (hart_among self.now.harts hart).pc fault }
    {
        Note::Fault {
            step: self.steps,
            hart,
            domain: self.harts.domain(hart),
            pc: self.harts.pc(hart),
            fault,
        }
    }

    /// Counts the harts that are halted here as halted in the checker.
    pub fn halt_left(&mut self)
        requires count { length self.old.harts ≡ length self.old.parts.harts }
        requires free { (h : ℕ) → is_halted (hart_among self.old.harts h).progress ≡ true →
            (kept_at self.old.parts.harts h).flight ≡ None }
        ensures { self.new
            ≡ record self.old {
              parts = record self.old.parts {
                harts = halted_first
                    (length self.old.harts) self.old.harts self.old.parts.harts;
              };
            } }
    {
        for hart in 0..self.harts.len() {
            self.halt_one(hart);
        }
    }

    /// Counts a hart as halted in the checker where it is halted here.
    fn halt_one(&mut self, hart: u32)
        requires kept { hart < length self.old.parts.harts }
        requires free { is_halted (hart_among self.old.harts hart).progress ≡ true →
            (kept_at self.old.parts.harts hart).flight ≡ None }
        ensures { self.new
            ≡ record self.old {
              parts = record self.old.parts
                  { harts = halted_at hart self.old.harts self.old.parts.harts };
            } }
    {
        if self.harts.is_halted(hart) {
            self.bus.supervisor.checker.halt(hart);
        }
    }
}
