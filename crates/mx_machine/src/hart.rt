//! One hart: its registers, pc, domain and frames, and the steps that a turn makes of them.
ghost use Rattle.std.specs.Prelude.{◌≡◌, ◌<◌, ◌%◌, is_some, unwrap_or, option_map, length, replicate, slice_index};
ghost use Rattle.std.specs.Prelude.{slice_set};
ghost use Rattle.mx_words.specs.Limits.{most_frames};
ghost use Rattle.mx_isa.specs.Ranges.{IsValid as IsInst};
ghost use Rattle.mx_model.specs.Gates.{nearest, top};
ghost use Rattle.mx_model.specs.Turn.{restored, saved};
ghost use Rattle.mx_machine.specs.Readings.{exit_by_progress, status_by_progress, TellsHart, TellsPlace};
ghost use Rattle.mx_machine.specs.Harts.{no_held_hart, own_call};
ghost use Rattle.mx_machine.specs.Starts.{resumed_hart};
ghost use Rattle.mx_machine.specs.Steps.{instructed, regs_carried, regs_left, CarriesOut, Instructs, goes, waits};
ghost use Rattle.mx_machine.specs.Steps.{halts, takes_answer, enters, leaves, gives_up, returns_over};

use crate::{HartPlace, HartState, HartStatus, HartView};
use mx_core::{Bus, Outcome, Regs, act_on, exec};
use mx_gates::CrossStack;
use mx_isa::Inst;
use mx_model::{Call, Frame};

/// The registers that a crossing saves, in the order of a frame (docs/MACHINE.md, "Gates").
const SAVED: [u32; 15] = [2, 3, 4, 8, 9, 18, 19, 20, 21, 22, 23, 24, 25, 26, 27];

/// x10 after a fault inside a call, but for the cause.
const FAULTED: u32 = 0xFFFF_FF00;

/// Whether a hart runs, waits on its announced call, or is halted, with the code of its exit if it made one.
#[derive(Clone, Copy, PartialEq, Eq)]
pub enum Progress {
    Running,
    Waiting,
    Halted(Option<u32>),
}

/// A hart.
#[derive(Drop)]
pub struct Hart {
    pub regs: Regs,
    pub pc: u32,
    pub domain: u32,
    pub frames: CrossStack,
    pub progress: Progress,
}

impl Hart {
    /// A hart that isn't there.
    pub fn none() -> Hart
        ensures { result ≡ no_held_hart }
    {
        Hart {
            regs: Regs::new(),
            pc: 0,
            domain: 0,
            frames: CrossStack::new(),
            progress: Progress::Halted(None),
        }
    }

    /// A hart that has made no turn, with a stack address in x2.
    pub fn start(domain: u32, pc: u32, stack: u32) -> Hart
        ensures { result
            ≡ record no_held_hart {
              regs = slice_set (replicate 32 0) 2 stack;
              pc = pc;
              domain = domain;
              progress = Progress.Running;
            } }
    {
        let mut regs = Regs::new();
        regs.set(2, stack);
        Hart {
            regs,
            pc,
            domain,
            frames: CrossStack::new(),
            progress: Progress::Running,
        }
    }

    /// A hart as it was left.
    pub fn resume(state: &HartState) -> Hart
        requires { slice_index state.now.regs 0 ≡ 0 }
        ensures { result ≡ resumed_hart state.now }
    {
        Hart {
            regs: regs_of(&state.regs),
            pc: state.pc,
            domain: state.domain,
            frames: frames_of(&state.frames),
            progress: match state.status {
                HartStatus::Running => Progress::Running,
                HartStatus::Waiting => Progress::Waiting,
                HartStatus::Halted => Progress::Halted(None),
            },
        }
    }

    /// Whether it runs, waits or is halted.
    pub fn status(&self) -> HartStatus
        ensures { result ≡ status_by_progress self.now.progress }
    {
        match self.progress {
            Progress::Running => HartStatus::Running,
            Progress::Waiting => HartStatus::Waiting,
            Progress::Halted(_) => HartStatus::Halted,
        }
    }

    /// The code of the exit that ended it, where one did.
    pub fn exit(&self) -> Option<u32>
        ensures { result ≡ exit_by_progress self.now.progress }
    {
        match self.progress {
            Progress::Running | Progress::Waiting => None,
            Progress::Halted(code) => code,
        }
    }

    /// The call that its registers make.
    pub fn call(&self, hart: u32) -> Call
        ensures { result ≡ own_call hart self.now }
    {
        let regs = &self.regs;
        Call {
            number: regs.get(17),
            args: [regs.get(10), regs.get(11), regs.get(12), regs.get(13)],
            hart,
            domain: self.domain,
            nested: self.frames.depth() > 0,
        }
    }

    /// Carries out the instruction at pc. Where it goes on, pc is the next one's.
    #[inline(always)]
    pub fn instruct<B: Bus>(&mut self, bus: &mut B, returns: bool) -> Outcome
        requires usable { B.usable bus.old }
        requires aligned { self.old.pc % 4 ≡ 0 }
        ensures ran { Instructs B.perm B.bytes B.touches returns self.old bus.old result bus.new }
        ensures after { self.new
            ≡ instructed (regs_left B.perm B.bytes returns self.old bus.old) result self.old }
        ensures map { B.perm bus.new ≡ B.perm bus.old }
        ensures usable { B.usable bus.new }
    {
        let outcome = exec(bus, &mut self.regs, self.pc, returns);
        if let Outcome::Next(pc) = outcome {
            self.pc = pc;
        }
        outcome
    }

    /// Carries out an instruction whose word stands at pc, where no JAL or JALR is to return.
    #[inline(always)]
    pub fn carry_out<B: Bus>(&mut self, bus: &mut B, inst: Inst) -> Outcome
        requires usable { B.usable bus.old }
        requires aligned { self.old.pc % 4 ≡ 0 }
        requires inst { IsInst inst }
        ensures ran { CarriesOut B.perm B.bytes B.touches inst self.old bus.old result bus.new }
        ensures after { self.new
            ≡ instructed (regs_carried B.perm B.bytes inst self.old bus.old) result self.old }
        ensures map { B.perm bus.new ≡ B.perm bus.old }
        ensures usable { B.usable bus.new }
    {
        match act_on(bus, &mut self.regs, self.pc, inst) {
            Outcome::Next(pc) => {
                self.pc = pc;
                Outcome::Next(pc)
            }
            outcome => outcome,
        }
    }

    /// Goes on at a pc with a value in x10.
    pub fn go_with(&mut self, pc: u32, value: u32)
        ensures { self.new ≡ goes (slice_set self.old.regs 10 value) pc self.old }
    {
        self.regs.set(10, value);
        self.pc = pc;
        self.progress = Progress::Running;
    }

    /// Goes on after a served call with its answers.
    pub fn answer(&mut self, a0: u32, a1: Option<u32>)
        ensures { self.new ≡ takes_answer a0 a1 self.old }
    {
        self.regs.set(10, a0);
        if let Some(value) = a1 {
            self.regs.set(11, value);
        }
        self.pc = self.pc.wrapping_add(4);
        self.progress = Progress::Running;
    }

    /// Waits on its call.
    pub fn wait(&mut self)
        ensures { self.new ≡ waits self.old }
    {
        self.progress = Progress::Waiting;
    }

    /// Is halted, with the code of an exit or without.
    pub fn halt(&mut self, code: Option<u32>)
        ensures { self.new ≡ halts code self.old }
    {
        self.progress = Progress::Halted(code);
    }

    /// The address in x2 with which it enters a domain: the one that it saved there last, or else the one given.
    pub fn stack_in(&self, domain: u32, own: u32) -> u32
        ensures { result ≡ unwrap_or (nearest self.now.frames domain) own }
    {
        self.frames.nearest(domain).unwrap_or(own)
    }

    /// Enters a domain with a stack address in x2. There is room for one frame more.
    pub fn enter(&mut self, domain: u32, stack: u32)
        requires { length self.old.frames < most_frames }
        ensures { self.new ≡ enters domain stack self.old }
    {
        let frame = Frame {
            back: self.regs.get(1),
            caller: self.domain,
            kept: save(&self.regs),
        };
        // There is room.
        let _ = self.frames.push(frame);
        self.regs.set(2, stack);
        self.domain = domain;
        self.progress = Progress::Running;
    }

    /// The return address of the top frame.
    pub fn back(&self) -> Option<u32>
        ensures { result ≡ option_map (λ f. f.back) (top self.now.frames) }
    {
        match self.frames.top() {
            Some(frame) => Some(frame.back),
            None => None,
        }
    }

    /// After a fault: gives up the top frame and goes on in its caller, with the cause in x10; without a frame it is
    /// halted. Whether
    /// there was a frame.
    pub fn give_up(&mut self, cause: u32) -> bool
        requires { cause < 256 }
        ensures frame { result ≡ is_some (top self.old.frames) }
        ensures after { self.new ≡ gives_up cause self.old }
    {
        match self.frames.pop() {
            Some(frame) => {
                self.regs.set(10, FAULTED + cause);
                self.leave(&frame);
                true
            }
            None => {
                self.progress = Progress::Halted(None);
                false
            }
        }
    }

    /// Returns over the top frame, which there is: rd takes pc + 4 first.
    pub fn go_back(&mut self, rd: u32)
        requires { rd < 32 }
        ensures { self.new ≡ returns_over rd self.old }
    {
        match self.frames.pop() {
            Some(frame) => {
                self.regs.set(rd, self.pc.wrapping_add(4));
                self.leave(&frame);
            }
            None => {}
        }
    }

    /// Goes on as a frame says that was taken off.
    fn leave(&mut self, frame: &Frame)
        ensures { self.new ≡ leaves self.old.regs frame.now self.old.frames self.old }
    {
        restore(&mut self.regs, &frame.kept);
        self.pc = frame.back;
        self.domain = frame.caller;
        self.progress = Progress::Running;
    }

    /// Where the hart stands.
    #[inline]
    pub fn place(&self) -> HartPlace
        ensures { TellsPlace self.now result }
    {
        HartPlace {
            status: self.status(),
            domain: self.domain,
            pc: self.pc,
        }
    }

    /// The hart as it is told.
    pub fn view(&self) -> HartView
        ensures { TellsHart self.now result }
    {
        let regs = *self.regs.values();
        HartView {
            status: self.status(),
            domain: self.domain,
            pc: self.pc,
            frames: self.frames.depth(),
            regs,
        }
    }
}

/// The fifteen registers.
fn save(regs: &Regs) -> [u32; 15]
    ensures { result ≡ saved regs.now }
{
    [
        regs.get(2),
        regs.get(3),
        regs.get(4),
        regs.get(8),
        regs.get(9),
        regs.get(18),
        regs.get(19),
        regs.get(20),
        regs.get(21),
        regs.get(22),
        regs.get(23),
        regs.get(24),
        regs.get(25),
        regs.get(26),
        regs.get(27),
    ]
}

/// Puts the fifteen registers back.
fn restore(regs: &mut Regs, kept: &[u32; 15])
    ensures { regs.new ≡ restored regs.old kept.now }
{
    for i in 0..15 {
        regs.set(SAVED[i], kept[i]);
    }
}

/// The registers of these values, of which the first is 0.
fn regs_of(values: &[u32; 32]) -> Regs
    requires { slice_index values.now 0 ≡ 0 }
    ensures { result ≡ values.now }
{
    let mut regs = Regs::new();
    for r in 0..32 {
        regs.set(r, values[r as usize]);
    }
    regs
}

/// The same frames.
fn frames_of(frames: &CrossStack) -> CrossStack
    ensures { result ≡ frames.now }
{
    let mut copy = CrossStack::new();
    for i in 0..frames.depth() {
        match frames.frame(i) {
            Some(frame) => {
                // There is room.
                let _ = copy.push(frame);
            }
            None => {}
        }
    }
    copy
}
