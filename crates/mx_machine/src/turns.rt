//! A turn by its cases (docs/MACHINE.md, "One turn").
ghost use Rattle.std.specs.Prelude.{◌≡◌, ◌-◌, ◌^◌, ◌<◌};
ghost use Rattle.mx_table.specs.Tables.{IsDomain};
ghost use Rattle.mx_model.specs.Events.{no_events};
ghost use Rattle.mx_model.specs.Run.{flat_made};
ghost use Rattle.mx_model.specs.Turn.{Asks, Traps, at_gate, at_return, call_of, is_return_at, served};
ghost use Rattle.mx_model.specs.Valid.{IsValid};
ghost use Rattle.mx_machine.specs.Actions.{after_instruction};
ghost use Rattle.mx_machine.specs.AtGate.{IsAtGate};
ghost use Rattle.mx_machine.specs.Goings.{kind_of};
ghost use Rattle.mx_machine.specs.Harts.{hart_among};
ghost use Rattle.mx_machine.specs.Held.{meaning};
ghost use Rattle.mx_machine.specs.Made.{IsMade, core_in, hart_in, reads_of, made_by, instruction, made_after_hearing};
ghost use Rattle.mx_machine.specs.Serving.{IsServing};
ghost use Rattle.mx_machine.specs.Ties.{Fits, IsWhole, MayAct, MayRun, RunsAlive};
ghost use Rattle.mx_machine.specs.declared.hart.Progress.TheVariants as G;
ghost use Rattle.mx_model.specs.declared.values.TurnKind.{TurnKind};

use crate::bare::{Bare, DEAD};
use crate::hart::Progress;
use mx_core::Outcome;
use mx_model::{Call, Events, Fault, Note, TurnKind};
use mx_supervisor::is_announced;
use mx_table::PermTables;
use mx_words::MOST_FRAMES;

/// How many frames a cross stack holds.
const FRAMES: u32 = MOST_FRAMES as u32;

/// x10 after a dead target sent a hart back.
const SENT_BACK: u32 = 0xFFFF_FF14;

/// Empties what a turn adds to. A turn mostly adds nothing, and then nothing is written.
#[inline(always)]
pub fn clear(out: &mut Events)
    ensures { out.new ≡ no_events }
{
    if out.len() == 0 && out.note().is_none() {
        return;
    }
    out.clear();
}

/// How a running hart goes on after a turn.
#[derive(Clone, Copy)]
pub enum Going {
    /// It carried out an instruction, and goes on in its domain.
    On,
    /// It made a turn of this kind, which isn't `Ran`, and is looked at anew before its next.
    Ended(TurnKind),
}

impl Going {
    /// What the turn was.
    pub fn kind(self) -> TurnKind
        ensures { result ≡ kind_of self }
    {
        match self {
            Going::On => TurnKind::Ran,
            Going::Ended(kind) => kind,
        }
    }
}

impl<T: PermTables, const N: usize> Bare<T, N> {
    /// One turn of the hart of that number, which may be none.
    pub fn step(&mut self, hart: u32, out: &mut Events) -> TurnKind
        requires whole { IsWhole self.old }
        requires few { self.old.steps < 2 ^ 64 - 1 }
        ensures made { IsMade self.old self.new out.new result (flat_made (meaning self.old) hart) }
        ensures fits { Fits self.new }
    {
        clear(out);
        self.steps += 1;
        match self.harts.progress(hart) {
            Progress::Halted(_) => TurnKind::Idle,
            Progress::Waiting => {
                self.hear(hart);
                self.wait_on(hart, out)
            }
            Progress::Running => {
                self.hear(hart);
                self.run(hart, out)
            }
        }
    }

    /// A waiting hart: its call is served once the others have heard it.
    fn wait_on(&mut self, hart: u32, out: &mut Events) -> TurnKind
        requires valid { IsValid (meaning self.old).core }
        requires act { MayAct self.old hart }
        requires waits { (hart_among self.old.harts hart).progress ≡ G.Waiting }
        requires empty { out.old ≡ no_events }
        ensures made { IsMade self.old self.new out.new result (made_after_hearing self.old hart) }
        ensures fits { Fits self.new }
    {
        if !self.bus.supervisor.checker.ready(hart) {
            return TurnKind::Waited;
        }
        let call = self.harts.call(hart);
        self.serve(hart, &call, out);
        self.waiting = self.harts.any_waits();
        TurnKind::Called
    }

    /// A running hart: dead domain, gate, or instruction.
    fn run(&mut self, hart: u32, out: &mut Events) -> TurnKind
        requires valid { IsValid (meaning self.old).core }
        requires run { MayRun self.old hart }
        requires empty { out.old ≡ no_events }
        ensures made { IsMade self.old self.new out.new result (made_after_hearing self.old hart) }
        ensures fits { Fits self.new }
    {
        let domain = self.harts.domain(hart);
        let pc = self.harts.pc(hart);
        if self.is_dead(domain) {
            return self.trap(hart, DEAD, pc, out);
        }
        match self.gate(domain, pc) {
            None => self.execute(hart, false, out).kind(),
            Some(target) => self.at_gate(hart, target, out).kind(),
        }
    }

    /// A running hart at a gate: a call gate leads into another domain, and a return gate back out of its own; at a
    /// return gate an
    /// instruction that doesn't return is carried out as anywhere, and the hart goes on.
    // Cold: most turns stand at no gate, and the row of turns is laid out for them.
    #[cold]
    pub fn at_gate(&mut self, hart: u32, target: u32, out: &mut Events) -> Going
        requires valid { IsValid (meaning self.old).core }
        requires at { IsAtGate self.old hart target }
        requires empty { out.old ≡ no_events }
        ensures made { IsMade self.old self.new out.new (kind_of result)
            (made_after_hearing self.old hart) }
        ensures fits { Fits self.new }
        ensures on { result ≡ Going.On → RunsAlive self.new hart × (out.new ≡ no_events) }
        ensures ran { kind_of result ≡ TurnKind.Ran → result ≡ Going.On }
    {
        let domain = self.harts.domain(hart);
        if target == domain {
            self.execute(hart, true, out)
        } else {
            Going::Ended(self.pass(hart, target, out))
        }
    }

    /// A running hart at a call gate.
    fn pass(&mut self, hart: u32, target: u32, out: &mut Events) -> TurnKind
        requires valid { IsValid (meaning self.old).core }
        requires run { MayRun self.old hart }
        requires target { IsDomain self.old.parts.maps target }
        requires empty { out.old ≡ no_events }
        ensures made { IsMade self.old self.new out.new result (made_by self.old hart
            (at_gate (core_in self.old) (hart_in self.old hart) target).action) }
        ensures fits { Fits self.new }
    {
        let link = self.harts.link(hart);
        if link % 4 != 0 {
            return self.trap(hart, 19, link, out);
        }
        if self.is_dead(target) {
            self.harts.go_with(hart, link, SENT_BACK);
            return TurnKind::Returned;
        }
        if self.harts.depth(hart) >= FRAMES {
            let pc = self.harts.pc(hart);
            return self.trap(hart, 16, pc, out);
        }
        self.enter(hart, target);
        TurnKind::Crossed
    }

    /// A running hart at an instruction, where no call gate stands.
    #[inline(always)]
    pub fn execute(&mut self, hart: u32, returns: bool, out: &mut Events) -> Going
        requires valid { IsValid (meaning self.old).core }
        requires run { MayRun self.old hart }
        requires returns { returns
            ≡ is_return_at (core_in self.old) (hart_in self.old hart).domain
            (hart_in self.old hart).pc }
        requires empty { out.old ≡ no_events }
        ensures made { IsMade self.old self.new out.new (kind_of result)
            (instruction self.old hart) }
        ensures fits { Fits self.new }
        ensures on { result ≡ Going.On → (self.new ≡ after_instruction hart returns self.old)
            × (out.new ≡ no_events) }
        ensures ran { kind_of result ≡ TurnKind.Ran → result ≡ Going.On }
    {
        match self.instruct(hart, returns) {
            Outcome::Next(_) => Going::On,
            Outcome::Trap(fault) => Going::Ended(self.trap(hart, fault.cause, fault.value, out)),
            Outcome::Call => Going::Ended(self.ask(hart, out)),
            Outcome::Back { rd, target } => Going::Ended(self.go_back(hart, rd, target, out)),
        }
    }

    /// A fault of a running hart.
    pub fn trap(&mut self, hart: u32, cause: u32, value: u32, out: &mut Events) -> TurnKind
        requires run { MayRun self.old hart }
        requires cause { cause < 256 }
        requires empty { out.old ≡ no_events }
        ensures made { IsMade self.old self.new out.new result
            (made_by self.old hart (Traps cause value)) }
        ensures fits { Fits self.new }
    {
        let domain = self.harts.domain(hart);
        let note = self.fault(hart, Fault { cause, value });
        out.set_note(note);
        self.kill(domain, cause);
        self.fall(hart, cause);
        TurnKind::Trapped
    }

    /// A JAL or JALR at a return gate.
    pub fn go_back(&mut self, hart: u32, rd: u32, target: u32, out: &mut Events) -> TurnKind
        requires run { MayRun self.old hart }
        requires rd { rd < 32 }
        requires empty { out.old ≡ no_events }
        ensures made { IsMade self.old self.new out.new result
            (made_by self.old hart (at_return (hart_in self.old hart) rd target)) }
        ensures fits { Fits self.new }
    {
        match self.harts.back(hart) {
            None => self.trap(hart, 18, target, out),
            Some(back) => {
                if back == target {
                    self.leave(hart, rd);
                    TurnKind::Returned
                } else {
                    self.trap(hart, 17, target, out)
                }
            }
        }
    }

    /// An ECALL: a call that changes rights is announced, and waits unless it may take effect at once; any other is
    /// served.
    pub fn ask(&mut self, hart: u32, out: &mut Events) -> TurnKind
        requires run { MayRun self.old hart }
        requires empty { out.old ≡ no_events }
        ensures made { IsMade self.old self.new out.new result
            (made_by self.old hart (Asks (call_of hart (hart_in self.old hart)))) }
        ensures fits { Fits self.new }
    {
        let call = self.harts.call(hart);
        if is_announced(call.number) && !self.announce(hart, &call) {
            self.harts.wait(hart);
            self.waiting = true;
            return TurnKind::Called;
        }
        self.serve(hart, &call, out);
        TurnKind::Called
    }

    /// Serves the hart's call, after which the hart runs or is halted by it.
    fn serve(&mut self, hart: u32, call: &Call, out: &mut Events)
        requires serving { IsServing self.old hart call.now }
        requires empty { out.old ≡ no_events }
        ensures made { IsMade self.old self.new out.new TurnKind.Called
            (served (reads_of self.old) (core_in self.old) hart (hart_in self.old hart) call.now) }
        ensures fits { Fits self.new }
    {
        let answer = self.bus.supervisor.serve(call, out);
        if answer.stop {
            self.harts.halt(hart, Some(answer.a0));
            self.bus.supervisor.checker.halt(hart);
            out.set_note(Note::Exit {
                step: self.steps,
                hart,
                domain: call.domain,
                code: answer.a0,
            });
        } else {
            self.harts.answer(hart, answer.a0, answer.a1);
        }
    }
}
