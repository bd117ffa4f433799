//! A small machine made by hand: modules with code and stack areas over 64 KiB of RAM, gates, and where harts start.
ghost use Rattle.std.specs.Prelude.{◌≡◌, ℕ, ◌+◌, ◌*◌, ◌<◌, ◌≤◌, true, [], ◌∷◌, All, length, slice_index, Some, IfOk};
ghost use Rattle.std.specs.Prelude.{IfSome, OnOk};
ghost use Rattle.std.specs.List.{AllByRecursion};
ghost use Rattle.mx_table.specs.Tables.{IsRow};
ghost use Rattle.mx_model.specs.Valid.{IsGate};
ghost use Rattle.mx_machine_tests.specs.Small.{AreLaid, IsBegin, IsLeft, IsPlaced, left_state, left_states, unheard};
ghost use Rattle.mx_words.specs.Ranges.{word_range};
ghost use Rattle.mx_words.specs.Limits.{most_modules, most_harts};

use mx_check::{Checker, Flight, Flights};
use mx_gates::{CrossStack, Gates};
use mx_heap::{Block, Heap};
use mx_machine::{
    HartStart, HartState, HartStates, HartStatus, Machine, StackArea, Stacks, Starts,
};
use mx_memory::Ram;
use mx_model::Gate;
use mx_owners::Owners;
use mx_packed::Packed;
use mx_supervisor::{Heaps, Supervisor};
use mx_table::PermTables;
use mx_trie::Trie;
use mx_words::{MOST_DOMAINS, MOST_HARTS, Need, NoMemory, Perm, RAM_BASE, Span, Spans, word_range};
use std::alloc::Global;

/// 64 KiB of RAM.
pub const WORDS: u32 = 16384;

/// A machine over the tables and lookaside buffers that a manifest makes which says nothing of them.
pub type Small = Machine<Trie<Packed>, 32>;

/// What the tables may take.
pub const AMPLE: Need = Need {
    upper: 128,
    leaf: 4096,
    spill: 4096,
};

/// The heap area of a module that has none.
pub const NO_HEAP: Block = Block { first: 0, count: 0 };

/// A module: the first word of its code, the code's words and their permission, its stack area and whether it is
/// killing, and its heap
/// area.
#[derive(Clone, Copy)]
pub struct Module<'a> {
    pub first: u32,
    pub words: &'a [u32],
    pub perm: Perm,
    pub stack: StackArea,
    pub heap: Block,
}

/// Whether a module's code and stack area lie in RAM.
fn is_placed(part: &Module) -> bool
    ensures { result ≡ true →
        IsPlaced part.now.first (length part.now.words.now) part.now.stack.first
        part.now.stack.words }
{
    let count = part.words.len();
    if count == 0 || count > 64 || part.first > 15000 {
        return false;
    }
    let stack = part.stack;
    if stack.words == 0 {
        return stack.first <= 16384;
    }
    stack.words <= 64 && stack.first <= 16000 && part.first + count as u32 <= stack.first
}

/// Whether a heap area lies in RAM.
fn is_area(heap: Block) -> bool
    ensures { result ≡ true → heap.first + heap.count ≤ 16384 }
{
    heap.count <= WORDS && heap.first <= WORDS - heap.count
}

/// The permissions of a module for so many harts: those of its code, and read and write on its stack area.
fn row(alloc: Global, part: &Module, harts: u32) -> Result<Spans, NoMemory>
    requires placed { IsPlaced part.now.first (length part.now.words.now) part.now.stack.first
        part.now.stack.words }
    requires some { 1 ≤ harts }
    requires few { harts ≤ most_harts }
    ensures { IfOk result (IsRow 16384) }
{
    let mut row = Spans::new(alloc);
    row.push(Span {
        first: part.first,
        count: part.words.len() as u32,
        perm: part.perm,
    })?;
    if part.stack.words == 0 {
        return Ok(row);
    }
    row.push(Span {
        first: part.stack.first,
        count: part.stack.words * harts,
        perm: Perm::ReadWrite,
    })?;
    Ok(row)
}

/// Puts a module's words into RAM.
fn fill(ram: &mut Ram, part: &Module)
    requires words { length ram.old ≡ 65536 }
    requires placed { IsPlaced part.now.first (length part.now.words.now) part.now.stack.first
        part.now.stack.words }
    ensures { length ram.new ≡ 65536 }
{
    let words = part.words;
    for i in 0..words.len() {
        ram.store(RAM_BASE + 4 * (part.first + i as u32), 4, words[i]);
    }
}

/// Gives a module its words for so many harts.
fn own(owners: &mut Owners, part: &Module, domain: u32, harts: u32)
    requires words { length owners.old ≡ 16384 }
    requires placed { IsPlaced part.now.first (length part.now.words.now) part.now.stack.first
        part.now.stack.words }
    requires heap { part.now.heap.first + part.now.heap.count ≤ 16384 }
    requires some { 1 ≤ harts }
    requires few { harts ≤ most_harts }
    ensures { length owners.new ≡ 16384 }
{
    let _ = owners.give(domain, part.first, part.words.len() as u32);
    if part.stack.words > 0 {
        let _ = owners.give(domain, part.stack.first, part.stack.words * harts);
    }
    if part.heap.count > 0 {
        let _ = owners.give(domain, part.heap.first, part.heap.count);
    }
}

/// Modules as they are laid out.
#[derive(Drop)]
struct Layout {
    rows: Vec<Spans>,
    ram: Ram,
    owners: Owners,
    heaps: Heaps,
    stacks: Stacks,
}

impl Layout {
    /// No module.
    fn new(alloc: Global, harts: u32) -> Result<Layout, NoMemory>
        ensures { IfOk result (λ l. AreLaid 0 harts l.rows.items l.ram l.owners l.heaps l.stacks) }
    {
        Ok(Layout {
            rows: Vec::new(alloc),
            ram: Ram::new(alloc, WORDS)?,
            owners: Owners::new(alloc, WORDS)?,
            heaps: Heaps::new(),
            stacks: Stacks::new(),
        })
    }

    /// Lays out a module after `count` others.
    fn add(&mut self, alloc: Global, part: &Module, count: u32, harts: u32) -> Result<(), NoMemory>
        requires laid { AreLaid count harts self.old.rows.items self.old.ram self.old.owners self.old.heaps
            self.old.stacks }
        requires room { count < most_modules }
        requires placed { IsPlaced part.now.first (length part.now.words.now) part.now.stack.first
            part.now.stack.words }
        requires heap { part.now.heap.first + part.now.heap.count ≤ 16384 }
        requires some { 1 ≤ harts }
        requires few { harts ≤ most_harts }
        ensures { OnOk result
            (AreLaid (count + 1) harts self.new.rows.items self.new.ram self.new.owners
            self.new.heaps self.new.stacks) }
    {
        let row = row(alloc, part, harts)?;
        let heap = Heap::new(alloc, part.heap.first, part.heap.count)?;
        self.rows.push(row)?;
        self.heaps.push(heap);
        self.stacks.push(part.stack);
        fill(&mut self.ram, part);
        own(&mut self.owners, part, count + 1, harts);
        Ok(())
    }
}

/// Modules laid out for so many harts. `None` where one doesn't lie in RAM, for more than 63, and where memory is
/// refused.
fn lay_out(alloc: Global, modules: &[Module], harts: u32) -> Option<Layout>
    requires some { 1 ≤ harts }
    requires few { harts ≤ most_harts }
    requires modules { length modules.now ≤ most_modules }
    ensures { IfSome result
        (λ l. AreLaid (length modules.now) harts l.rows.items l.ram l.owners l.heaps l.stacks) }
{
    let Ok(mut layout) = Layout::new(alloc, harts) else {
        return None;
    };
    for i in 0..modules.len() {
        let part = &modules[i];
        if !is_placed(part) {
            return None;
        }
        if !is_area(part.heap) {
            return None;
        }
        if layout.add(alloc, part, i as u32, harts).is_err() {
            return None;
        }
    }
    Some(layout)
}

/// Gates between so many modules. `None` where one is for no word of RAM or for another module.
fn gates_of(gates: &[Gate], modules: u32) -> Option<Gates>
    ensures { IfSome result (AllByRecursion (IsGate modules 16384)) }
{
    let mut all = Gates::new();
    for i in 0..gates.len() {
        if !is_gate(gates[i], modules) {
            return None;
        }
        let _ = all.add(gates[i]);
    }
    Some(all)
}

/// Whether a gate is for a word of RAM and between so many modules.
fn is_gate(gate: Gate, modules: u32) -> bool
    ensures { result ≡ true → IsGate modules 16384 gate }
{
    if gate.domain == 0 || gate.domain > modules {
        return false;
    }
    if gate.target == 0 || gate.target > modules {
        return false;
    }
    gate.word < WORDS
}

/// Starts in so many modules. `None` where one isn't in a module at a multiple of 4, and for more than 4.
fn starts_of(starts: &[HartStart], modules: u32) -> Option<Starts>
    requires { length starts.now ≤ most_harts }
    ensures count { IfSome result (λ s. length s ≡ length starts.now) }
    ensures each { IfSome result (AllByRecursion (IsBegin modules)) }
{
    let mut all = Starts::new();
    for i in 0..starts.len() {
        if !is_begin(starts[i], modules) {
            return None;
        }
        all.push(starts[i]);
    }
    Some(all)
}

/// Whether a hart starts in one of so many modules at a multiple of 4.
fn is_begin(start: HartStart, modules: u32) -> bool
    ensures { result ≡ true → IsBegin modules start }
{
    if start.domain == 0 || start.domain > modules {
        return false;
    }
    start.pc % 4 == 0
}

/// Tables with the permissions of modules that are laid out. `None` where they don't fit, and where memory is refused.
fn tables_of<T: PermTables>(alloc: Global, layout: &Layout) -> Option<T>
    requires some { 1 ≤ length layout.now.rows.items }
    requires few { length layout.now.rows.items ≤ most_modules }
    requires rows { All (IsRow 16384) layout.now.rows.items }
    ensures maps { IfSome result (λ t. length (T.maps t) ≡ length layout.now.rows.items) }
    ensures size { IfSome result (λ t. T.size t ≡ 16384) }
{
    T::build(alloc, WORDS, &layout.rows, AMPLE).ok()
}

/// A machine of these modules, gates and starts. `None` where one of them doesn't fit, and where memory is refused.
pub fn machine(
    alloc: Global,
    modules: &[Module],
    gates: &[Gate],
    starts: &[HartStart],
) -> Option<Small> {
    let count = modules.len();
    let harts = starts.len();
    if count == 0 || count > 63 || harts == 0 || harts > 4 {
        return None;
    }
    let gates = gates_of(gates, count as u32)?;
    let starts = starts_of(starts, count as u32)?;
    let layout = lay_out(alloc, modules, harts as u32)?;
    let tables = tables_of::<Trie<Packed>>(alloc, &layout)?;
    let supervisor = Supervisor::new(
        Checker::new(tables, harts as u32),
        layout.ram,
        layout.owners,
        gates,
        layout.heaps,
    );
    Some(Machine::new(supervisor, &starts, &layout.stacks))
}

/// A hart as it was left, without frames.
#[derive(Clone, Copy)]
pub struct Left {
    pub status: HartStatus,
    pub domain: u32,
    pub pc: u32,
    pub regs: [u32; 32],
}

/// Whether a hart may go on in so many modules.
fn is_left(left: &Left, modules: u32) -> bool
    ensures { result ≡ true → IsLeft modules left.now.domain left.now.pc left.now.regs }
{
    if left.domain == 0 || left.domain > modules {
        return false;
    }
    left.pc % 4 == 0 && left.regs[0] == 0
}

/// The state of a hart as it was left, but for its status.
fn state_of(left: &Left, status: HartStatus) -> HartState
    ensures { result ≡ left_state status left.now.domain left.now.pc left.now.regs }
{
    HartState {
        status,
        domain: left.domain,
        pc: left.pc,
        regs: left.regs,
        frames: CrossStack::new(),
    }
}

/// The states of a waiting, a halted and a running hart.
fn states_of(waiting: &Left, halted: &Left, running: &Left) -> HartStates
    ensures { result ≡
        left_states waiting.now.domain waiting.now.pc waiting.now.regs halted.now.domain
        halted.now.pc halted.now.regs running.now.domain running.now.pc running.now.regs }
{
    let mut states = HartStates::new();
    states.push(state_of(waiting, HartStatus::Waiting));
    states.push(state_of(halted, HartStatus::Halted));
    states.push(state_of(running, HartStatus::Running));
    states
}

/// A call of hart 0 in flight that no other hart has heard.
fn flights_of(first: u32, count: u32) -> Flights
    ensures { result ≡ unheard first count ∷ [] }
{
    let mut flights = Flights::new();
    flights.push(Flight {
        hart: 0,
        first,
        count,
        heard: [false; MOST_HARTS],
    });
    flights
}

/// The range of a grant on which a hart waits. `None` where it waits on another call, and for no range of RAM.
fn granted_by(waiting: &Left) -> Option<(u32, u32)>
    ensures number { IfSome result (λ r. slice_index waiting.now.regs 17 ≡ 3) }
    ensures range { IfSome result
        (λ r. word_range (slice_index waiting.now.regs 10) (slice_index waiting.now.regs 11) 16384 ≡
        Some r) }
    ensures inside { IfSome result (λ r. r.0 + r.1 ≤ 16384) }
{
    if waiting.regs[17] != 3 {
        return None;
    }
    match word_range(waiting.regs[10], waiting.regs[11], WORDS) {
        Some(range) => {
            if range.0 <= WORDS && range.1 <= WORDS - range.0 {
                Some(range)
            } else {
                None
            }
        }
        None => None,
    }
}

/// A machine of three harts that goes on: the first waits on a grant that no other has heard, the second is halted, and
/// the third
/// runs. `None` where one of them doesn't fit, and where memory is refused.
pub fn resumed(
    alloc: Global,
    modules: &[Module],
    waiting: &Left,
    halted: &Left,
    running: &Left,
    steps: u64,
) -> Option<Small> {
    let count = modules.len();
    if count == 0 || count > 63 || steps > 1000 {
        return None;
    }
    let last = count as u32;
    if !is_left(waiting, last) {
        return None;
    }
    if !is_left(halted, last) {
        return None;
    }
    if !is_left(running, last) {
        return None;
    }
    let range = granted_by(waiting)?;
    let layout = lay_out(alloc, modules, 3)?;
    let tables = tables_of::<Trie<Packed>>(alloc, &layout)?;
    let flights = flights_of(range.0, range.1);
    let states = states_of(waiting, halted, running);
    let supervisor = Supervisor::new(
        Checker::resume(tables, 3, &flights),
        layout.ram,
        layout.owners,
        Gates::new(),
        layout.heaps,
    );
    let dead = [false; MOST_DOMAINS];
    Some(Machine::resume(supervisor, &states, &layout.stacks, &dead, steps))
}
