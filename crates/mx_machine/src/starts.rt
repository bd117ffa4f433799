//! With what a machine starts or resumes.
ghost use Rattle.std.specs.Prelude.{◌≡◌, ◌<◌, ◌≤◌, ◌+◌, ◌*◌, ◌⊎◌, [], ◌∷◌, ◌++◌, length, slice_get, slice_index};
ghost use Rattle.std.specs.List.{AllByRecursion};
ghost use Rattle.std.specs.Prelude.{map as list_map};
ghost use Rattle.mx_machine.specs.Harts.{hart_among};
ghost use Rattle.mx_machine.specs.Starts.{no_state, resumed_hart};
ghost use Rattle.mx_machine.specs.Smalls.{AreSmall, AreSmallFrames, IsSmallFrame, IsSmallStart, IsSmallState};
ghost use Rattle.mx_machine.specs.Held.{area_of, behind};
ghost use Rattle.mx_words.specs.Ranges.{most_words};
ghost use Rattle.mx_words.specs.Limits.{most_harts, most_modules};

use crate::HartStatus;
use crate::hart::Hart;
use arrayvec::ArrayVec;
use mx_gates::CrossStack;
use mx_model::Frame;
use mx_words::{MOST_HARTS, MOST_MODULES, RAM_BASE};
use std::marker::Model;

/// Where a hart starts: in a domain, from 1 on, at a pc that is a multiple of 4.
#[derive(Clone, Copy, PartialEq, Eq, Default)]
pub struct HartStart {
    /// The domain.
    pub domain: u32,
    /// The address of the first instruction.
    pub pc: u32,
}

/// A list of starts, one for each hart from 0 on.
#[derive(Drop)]
pub struct Starts {
    items: ArrayVec<HartStart, MOST_HARTS>,
}

impl Model for Starts {
    ghost use Rattle.std.specs.Prelude.{List};
    ghost use Rattle.mx_machine.specs.declared.starts.HartStart.{HartStart};

    ghost Value = { List HartStart };

    ghost view = { λ s. s.items.items };
}

impl Starts {
    /// No start.
    pub fn new() -> Starts
        ensures { result ≡ [] }
    {
        Starts {
            items: ArrayVec::new(),
        }
    }

    /// Appends the start of the next hart. Fewer than the greatest number of harts are held.
    pub fn push(&mut self, item: HartStart)
        requires { length self.old < most_harts }
        ensures { self.new ≡ self.old ++ item ∷ [] }
    {
        self.items.push(item);
    }

    /// The number of starts.
    pub(crate) fn len(&self) -> u32
        ensures number { result ≡ length self.now }
        ensures few { result ≤ most_harts }
    {
        self.items.len() as u32
    }

    /// The start of a hart. `None` where there is none.
    pub(crate) fn get(&self, hart: u32) -> Option<HartStart>
        ensures { result ≡ slice_get self.now hart }
    {
        self.items.as_slice().get(hart as usize).copied()
    }
}

/// The stack area of a module: the words from `first` on, `words` of them for each hart from 0 on, 0 for none. And
/// whether the
/// module is killing.
#[derive(Clone, Copy, PartialEq, Eq, Debug, Default)]
pub struct StackArea {
    /// The first RAM word.
    pub first: u32,
    /// How many words each hart has.
    pub words: u32,
    /// Whether a fault in the module makes it dead.
    pub kills: bool,
}

/// A list of stack areas, one for each module in the modules' order.
#[derive(Drop)]
pub struct Stacks {
    items: ArrayVec<StackArea, MOST_MODULES>,
}

impl Model for Stacks {
    ghost use Rattle.std.specs.Prelude.{List};
    ghost use Rattle.mx_machine.specs.declared.starts.StackArea.{StackArea};

    ghost Value = { List StackArea };

    ghost view = { λ s. s.items.items };
}

impl Stacks {
    /// No area.
    pub fn new() -> Stacks
        ensures { result ≡ [] }
    {
        Stacks {
            items: ArrayVec::new(),
        }
    }

    /// Appends the area of the next module. Fewer than the greatest number of modules are held.
    pub fn push(&mut self, item: StackArea)
        requires { length self.old < most_modules }
        ensures { self.new ≡ self.old ++ item ∷ [] }
    {
        self.items.push(item);
    }

    /// The area of a domain; domains count from 1. It has no words where there is none.
    pub(crate) fn area(&self, domain: u32) -> StackArea
        requires { 1 ≤ domain }
        ensures { result ≡ area_of self.now domain }
    {
        match self.items.as_slice().get(domain as usize - 1) {
            Some(area) => *area,
            None => StackArea {
                first: 0,
                words: 0,
                kills: false,
            },
        }
    }

    /// The address after a domain's stack area for a hart, 0 where it has none. The area lies in RAM.
    pub(crate) fn behind(&self, domain: u32, hart: u32) -> u32
        requires domain { 1 ≤ domain }
        requires area { ((area_of self.now domain).words ≡ 0)
            ⊎ ((area_of self.now domain).first + (area_of self.now domain).words * (hart + 1)
            ≤ most_words) }
        ensures { result ≡ behind self.now domain hart }
    {
        let area = self.area(domain);
        if area.words == 0 {
            0
        } else {
            RAM_BASE + 4 * (area.first + area.words * (hart + 1))
        }
    }

    /// The same areas.
    pub(crate) fn copy(&self) -> Stacks
        ensures { result ≡ self.now }
    {
        let mut stacks = Stacks::new();
        for area in self.items.as_slice() {
            stacks.push(*area);
        }
        stacks
    }
}

/// With what a hart resumes.
#[derive(Drop)]
pub struct HartState {
    /// Whether it runs. A waiting hart's call is that of its registers.
    pub status: HartStatus,
    /// Its domain, from 1 on.
    pub domain: u32,
    /// Its pc, a multiple of 4.
    pub pc: u32,
    /// Its registers, of which x0 is 0.
    pub regs: [u32; 32],
    /// Its frames. Their return addresses are multiples of 4, their callers are domains from 1 on.
    pub frames: CrossStack,
}

impl Default for HartState {
    /// What a place of a list holds before a hart is pushed there: halted, in no domain, all registers zero, without
    /// frames.
    fn default() -> HartState
        ensures { result ≡ no_state }
    {
        HartState {
            status: HartStatus::Halted,
            domain: 0,
            pc: 0,
            regs: [0; 32],
            frames: CrossStack::new(),
        }
    }
}

/// A list of harts to resume, from hart 0 on.
#[derive(Drop)]
pub struct HartStates {
    items: ArrayVec<HartState, MOST_HARTS>,
}

impl Model for HartStates {
    ghost use Rattle.std.specs.Prelude.{List};
    ghost use Rattle.mx_machine.specs.declared.starts.HartState.{HartState};

    ghost Value = { List HartState };

    ghost view = { λ s. s.items.items };
}

impl HartStates {
    /// No hart.
    pub fn new() -> HartStates
        ensures { result ≡ [] }
    {
        HartStates {
            items: ArrayVec::new(),
        }
    }

    /// Appends the next hart. Fewer than the greatest number of harts are held.
    pub fn push(&mut self, item: HartState)
        requires { length self.old < most_harts }
        ensures { self.new ≡ self.old ++ item ∷ [] }
    {
        self.items.push(item);
    }

    /// The number of harts.
    pub(crate) fn len(&self) -> u32
        ensures number { result ≡ length self.now }
        ensures few { result ≤ most_harts }
    {
        self.items.len() as u32
    }

    /// A hart as it was left. One that isn't there is halted.
    pub(crate) fn hart(&self, hart: u32) -> Hart
        requires { AllByRecursion (λ s. slice_index s.regs 0 ≡ 0) self.now }
        ensures { result ≡ hart_among (list_map resumed_hart self.now) hart }
    {
        match self.items.as_slice().get(hart as usize) {
            Some(state) => Hart::resume(state),
            None => Hart::none(),
        }
    }
}

/// A law: the starts are at most as many as the harts may be, and each pc is a number of 32 bits.
pub(crate) fn starts_of(starts: &Starts)
    ensures few { length starts.now ≤ most_harts }
    ensures small { AllByRecursion IsSmallStart starts.now }
{
    for hart in 0..starts.len() {
        match starts.get(hart) {
            Some(start) => start_of(&start),
            None => {}
        }
    }
}

fn start_of(start: &HartStart)
    ensures { IsSmallStart start.now }
{
    let _pc = start.pc;
}

/// A law: the states are at most as many as the harts may be, each has at most as many frames as a cross stack holds,
/// and
/// what they hold are numbers of 32 bits.
pub(crate) fn states_of(states: &HartStates)
    ensures few { length states.now ≤ most_harts }
    ensures small { AllByRecursion IsSmallState states.now }
{
    for hart in 0..states.len() {
        match states.items.as_slice().get(hart as usize) {
            Some(state) => state_of(state),
            None => {}
        }
    }
}

fn state_of(state: &HartState)
    ensures { IsSmallState state.now }
{
    let _pc = state.pc;
    registers_of(&state.regs);
    frames_of(&state.frames);
}

fn registers_of(regs: &[u32; 32])
    ensures { AreSmall 32 regs.now }
{
    let _first = regs[0];
}

fn frames_of(frames: &CrossStack)
    ensures { AreSmallFrames frames.now }
{
    for i in 0..frames.depth() {
        match frames.frame(i) {
            Some(frame) => frame_of(&frame),
            None => {}
        }
    }
}

fn frame_of(frame: &Frame)
    ensures { IsSmallFrame frame.now }
{
    let _back = frame.back;
    kept_of(&frame.kept);
}

fn kept_of(kept: &[u32; 15])
    ensures { AreSmall 15 kept.now }
{
    let _first = kept[0];
}
