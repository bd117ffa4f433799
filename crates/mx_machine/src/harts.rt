//! The harts of a machine.
ghost use Rattle.std.specs.Prelude.{◌≡◌, ℕ, ◌<◌, ◌≤◌, ◌%◌, ◌+◌, ◌*◌, ◌⊎◌, is_some, unwrap_or, option_map, IfSome};
ghost use Rattle.std.specs.Prelude.{length, slice_index, slice_set, slice_get};
ghost use Rattle.std.specs.List.{list_any, list_all, AllByRecursion};
ghost use Rattle.std.specs.Prelude.{map as list_map};
ghost use Rattle.mx_words.specs.Ranges.{most_words};
ghost use Rattle.mx_words.specs.Limits.{most_harts, most_frames};
ghost use Rattle.mx_isa.specs.Ranges.{IsValid as IsInst};
ghost use Rattle.mx_core.specs.Memo.{quick};
ghost use Rattle.mx_model.specs.Effect.{reg};
ghost use Rattle.mx_model.specs.Gates.{nearest, top};
ghost use Rattle.mx_machine.specs.Harts.{hart_among, stepped, own_call, is_halted, is_waiting};
ghost use Rattle.mx_machine.specs.Held.{area_of};
ghost use Rattle.mx_machine.specs.Readings.{TellsHart, TellsPlace, exit_by_progress};
ghost use Rattle.mx_machine.specs.Starts.{started_from, resumed_hart};
ghost use Rattle.mx_machine.specs.Steps.{instructed, regs_carried, regs_left, CarriesOut, Instructs, goes, waits};
ghost use Rattle.mx_machine.specs.Steps.{halts, takes_answer, enters, gives_up, returns_over};

use crate::hart::{Hart, Progress};
use crate::{HartPlace, HartStates, HartView, Stacks, Starts};
use mx_core::{Bus, Memo, Outcome};
use mx_isa::Inst;
use mx_model::{Call, Frame};
use mx_words::MOST_HARTS;
use std::marker::Model;

/// The harts, and beside them the decoded words that their turns find again. Nothing of those is seen.
#[derive(Drop)]
pub struct Harts {
    items: [Hart; MOST_HARTS],
    len: u32,
    memo: Memo,
}

impl Model for Harts {
    ghost use Rattle.std.specs.Prelude.{◌≡◌, ◌≤◌, List, length, take};
    ghost use Rattle.mx_words.specs.Limits.{most_harts};
    ghost use Rattle.mx_machine.specs.declared.hart.Hart.{Hart};

    ghost Value = { List Hart };

    ghost view = { λ h. take h.len h.items };

    ghost invariant = { λ h. (length h.items ≡ most_harts) × (h.len ≤ most_harts) };
}

impl Harts {
    /// The harts that start in these places, with the stack addresses of their domains.
    pub fn start(starts: &Starts, stacks: &Stacks) -> Harts
        requires few { length starts.now ≤ most_harts }
        requires each { AllByRecursion (λ s. 1 ≤ s.domain) starts.now }
        requires areas { (d : ℕ) →
            ((area_of stacks.now d).words ≡ 0)
            ⊎ ((area_of stacks.now d).first + (area_of stacks.now d).words * length starts.now
            ≤ most_words) }
        ensures { result ≡ started_from stacks.now 0 starts.now }
    {
        Harts {
            items: [
                start_of(starts, stacks, 0),
                start_of(starts, stacks, 1),
                start_of(starts, stacks, 2),
                start_of(starts, stacks, 3),
            ],
            len: starts.len(),
            memo: Memo::new(),
        }
    }

    /// The harts as they were left.
    pub fn resume(states: &HartStates) -> Harts
        requires { AllByRecursion (λ s. slice_index s.regs 0 ≡ 0) states.now }
        ensures { result ≡ list_map resumed_hart states.now }
    {
        Harts {
            items: [
                states.hart(0),
                states.hart(1),
                states.hart(2),
                states.hart(3),
            ],
            len: states.len(),
            memo: Memo::new(),
        }
    }

    /// The number of harts.
    pub fn len(&self) -> u32
        ensures number { result ≡ length self.now }
        ensures few { result ≤ most_harts }
    {
        self.len
    }

    /// Whether a hart runs, waits or is halted; one that isn't there is halted.
    pub fn progress(&self, hart: u32) -> Progress
        ensures { result ≡ (hart_among self.now hart).progress }
    {
        if hart >= self.len {
            return Progress::Halted(None);
        }
        let part = &self.items[hart as usize];
        part.progress
    }

    /// Whether a hart waits.
    pub fn waits(&self, hart: u32) -> bool
        ensures { result ≡ is_waiting (hart_among self.now hart).progress }
    {
        match self.progress(hart) {
            Progress::Running => false,
            Progress::Waiting => true,
            Progress::Halted(_) => false,
        }
    }

    /// Whether a hart is halted, or isn't there.
    pub fn is_halted(&self, hart: u32) -> bool
        ensures { result ≡ is_halted (hart_among self.now hart).progress }
    {
        match self.progress(hart) {
            Progress::Running => false,
            Progress::Waiting => false,
            Progress::Halted(_) => true,
        }
    }

    /// Whether any hart waits.
    pub fn any_waits(&self) -> bool
        ensures { result ≡ list_any (λ x. is_waiting x.progress) self.now }
    {
        for hart in 0..self.len {
            if self.waits(hart) {
                return true;
            }
        }
        false
    }

    /// Whether all harts are halted.
    pub fn all_halted(&self) -> bool
        ensures { result ≡ list_all (λ x. is_halted x.progress) self.now }
    {
        for hart in 0..self.len {
            if !self.is_halted(hart) {
                return false;
            }
        }
        true
    }

    /// The pc of a hart.
    pub fn pc(&self, hart: u32) -> u32
        requires { hart < length self.now }
        ensures { result ≡ (hart_among self.now hart).pc }
    {
        let part = &self.items[hart as usize];
        part.pc
    }

    /// The domain of a hart.
    pub fn domain(&self, hart: u32) -> u32
        requires { hart < length self.now }
        ensures { result ≡ (hart_among self.now hart).domain }
    {
        let part = &self.items[hart as usize];
        part.domain
    }

    /// The x1 of a hart.
    pub fn link(&self, hart: u32) -> u32
        requires { hart < length self.now }
        ensures { result ≡ reg (hart_among self.now hart).regs 1 }
    {
        let part = &self.items[hart as usize];
        part.regs.get(1)
    }

    /// How many frames a hart has.
    pub fn depth(&self, hart: u32) -> u32
        requires { hart < length self.now }
        ensures { result ≡ length (hart_among self.now hart).frames }
    {
        let part = &self.items[hart as usize];
        part.frames.depth()
    }

    /// The return address of the top frame of a hart.
    pub fn back(&self, hart: u32) -> Option<u32>
        requires { hart < length self.now }
        ensures { result ≡ option_map (λ f. f.back) (top (hart_among self.now hart).frames) }
    {
        let part = &self.items[hart as usize];
        part.back()
    }

    /// Frame `i` of a hart, from the bottom.
    pub fn frame(&self, hart: u32, i: u32) -> Option<Frame>
        requires { hart < length self.now }
        ensures { result ≡ slice_get (hart_among self.now hart).frames i }
    {
        let part = &self.items[hart as usize];
        part.frames.frame(i)
    }

    /// As `Hart::place`, for one hart.
    #[inline]
    pub fn place(&self, hart: u32) -> HartPlace
        requires { hart < length self.now }
        ensures { TellsPlace (hart_among self.now hart) result }
    {
        let part = &self.items[hart as usize];
        part.place()
    }

    /// As `Hart::exit`, for one hart.
    pub fn exit(&self, hart: u32) -> Option<u32>
        requires { hart < length self.now }
        ensures { result ≡ exit_by_progress (hart_among self.now hart).progress }
    {
        let part = &self.items[hart as usize];
        part.exit()
    }

    /// The registers x0 to x31 of one hart.
    #[inline]
    pub fn regs(&self, hart: u32) -> &[u32; 32]
        requires { hart < length self.now }
        ensures { result.now ≡ (hart_among self.now hart).regs }
    {
        let part = &self.items[hart as usize];
        part.regs.values()
    }

    /// As `Hart::view`, for one hart.
    pub fn view(&self, hart: u32) -> HartView
        requires { hart < length self.now }
        ensures { TellsHart (hart_among self.now hart) result }
    {
        let part = &self.items[hart as usize];
        part.view()
    }

    /// As `Hart::call`, for one hart.
    pub fn call(&self, hart: u32) -> Call
        requires { hart < length self.now }
        ensures { result ≡ own_call hart (hart_among self.now hart) }
    {
        let part = &self.items[hart as usize];
        part.call(hart)
    }

    /// As `Hart::stack_in`, for one hart.
    pub fn stack_in(&self, hart: u32, domain: u32, own: u32) -> u32
        requires { hart < length self.now }
        ensures { result ≡ unwrap_or (nearest (hart_among self.now hart).frames domain) own }
    {
        let part = &self.items[hart as usize];
        part.stack_in(domain, own)
    }

    /// As `Hart::instruct`, for one hart.
    #[inline(always)]
    pub fn instruct<B: Bus>(&mut self, hart: u32, bus: &mut B, returns: bool) -> Outcome
        requires hart { hart < length self.old }
        requires usable { B.usable bus.old }
        requires aligned { (hart_among self.old hart).pc % 4 ≡ 0 }
        ensures ran { Instructs B.perm B.bytes B.touches returns (hart_among self.old hart)
            bus.old result bus.new }
        ensures after { self.new
            ≡ stepped hart
            (instructed (regs_left B.perm B.bytes returns (hart_among self.old hart) bus.old)
            result)
            self.old }
        ensures map { B.perm bus.new ≡ B.perm bus.old }
        ensures usable { B.usable bus.new }
    {
        let part = &mut self.items[hart as usize];
        part.instruct(bus, returns)
    }

    /// As `Memo::inst`.
    #[inline(always)]
    pub fn inst(&mut self, addr: u32, word: u32) -> Option<Inst>
        ensures inst { result ≡ quick word }
        ensures valid { IfSome result IsInst }
        ensures same { self.new ≡ self.old }
    {
        self.memo.inst(addr, word)
    }

    /// As `Hart::carry_out`, for one hart.
    #[inline(always)]
    pub fn carry_out<B: Bus>(&mut self, hart: u32, bus: &mut B, inst: Inst) -> Outcome
        requires hart { hart < length self.old }
        requires usable { B.usable bus.old }
        requires aligned { (hart_among self.old hart).pc % 4 ≡ 0 }
        requires inst { IsInst inst }
        ensures ran { CarriesOut B.perm B.bytes B.touches inst (hart_among self.old hart)
            bus.old result bus.new }
        ensures after { self.new
            ≡ stepped hart
            (instructed (regs_carried B.perm B.bytes inst (hart_among self.old hart) bus.old)
            result)
            self.old }
        ensures map { B.perm bus.new ≡ B.perm bus.old }
        ensures usable { B.usable bus.new }
    {
        let part = &mut self.items[hart as usize];
        part.carry_out(bus, inst)
    }

    /// As `Hart::go_with`, for one hart.
    pub fn go_with(&mut self, hart: u32, pc: u32, value: u32)
        requires { hart < length self.old }
        ensures { self.new
            ≡ stepped hart (goes (slice_set (hart_among self.old hart).regs 10 value) pc) self.old }
    {
        let part = &mut self.items[hart as usize];
        part.go_with(pc, value);
    }

    /// As `Hart::answer`, for one hart.
    pub fn answer(&mut self, hart: u32, a0: u32, a1: Option<u32>)
        requires { hart < length self.old }
        ensures { self.new ≡ stepped hart (takes_answer a0 a1) self.old }
    {
        let part = &mut self.items[hart as usize];
        part.answer(a0, a1);
    }

    /// As `Hart::wait`, for one hart.
    pub fn wait(&mut self, hart: u32)
        requires { hart < length self.old }
        ensures { self.new ≡ stepped hart waits self.old }
    {
        let part = &mut self.items[hart as usize];
        part.wait();
    }

    /// As `Hart::halt`, for one hart.
    pub fn halt(&mut self, hart: u32, code: Option<u32>)
        requires { hart < length self.old }
        ensures { self.new ≡ stepped hart (halts code) self.old }
    {
        let part = &mut self.items[hart as usize];
        part.halt(code);
    }

    /// As `Hart::enter`, for one hart.
    pub fn enter(&mut self, hart: u32, domain: u32, stack: u32)
        requires hart { hart < length self.old }
        requires room { length (hart_among self.old hart).frames < most_frames }
        ensures { self.new ≡ stepped hart (enters domain stack) self.old }
    {
        let part = &mut self.items[hart as usize];
        part.enter(domain, stack);
    }

    /// As `Hart::give_up`, for one hart.
    pub fn give_up(&mut self, hart: u32, cause: u32) -> bool
        requires hart { hart < length self.old }
        requires cause { cause < 256 }
        ensures frame { result ≡ is_some (top (hart_among self.old hart).frames) }
        ensures after { self.new ≡ stepped hart (gives_up cause) self.old }
    {
        let part = &mut self.items[hart as usize];
        part.give_up(cause)
    }

    /// As `Hart::go_back`, for one hart.
    pub fn go_back(&mut self, hart: u32, rd: u32)
        requires hart { hart < length self.old }
        requires rd { rd < 32 }
        ensures { self.new ≡ stepped hart (returns_over rd) self.old }
    {
        let part = &mut self.items[hart as usize];
        part.go_back(rd);
    }
}

/// The start of a hart; of one that isn't there, no hart.
fn start_of(starts: &Starts, stacks: &Stacks, hart: u32) -> Hart
    requires each { AllByRecursion (λ s. 1 ≤ s.domain) starts.now }
    requires areas { (d : ℕ) →
        ((area_of stacks.now d).words ≡ 0)
        ⊎ ((area_of stacks.now d).first + (area_of stacks.now d).words * length starts.now
        ≤ most_words) }
    ensures { result ≡ hart_among (started_from stacks.now 0 starts.now) hart }
{
    match starts.get(hart) {
        Some(start) => {
            let stack = stacks.behind(start.domain, hart);
            Hart::start(start.domain, start.pc, stack)
        }
        None => Hart::none(),
    }
}
