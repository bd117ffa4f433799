//! Machines of any kind of tables and any size of lookaside buffers. In every call that reads one a hart is below
//! `harts()`, a domain
//! is from 1 to `modules()`, and a word is below `words()`, a byte's place below 4 times that. A place in a list may be
//! any number.

ghost use Rattle.mx_coherence.specs.Coherence.{KeepsNoStaleSpan, flat_coherent};
ghost use Rattle.mx_heap.specs.HeapState.{area_of};
ghost use Rattle.mx_laws.specs.After.{frames_at};
ghost use Rattle.mx_laws.specs.Crossing.{FramesAfter};
ghost use Rattle.mx_laws.specs.Foreign.{ForeignAfter};
ghost use Rattle.mx_machine.specs.Readings.{IsAreaOf, IsPlaceOf, IsViewOf, exit_of, was_heard};
ghost use Rattle.mx_machine.specs.Turning.{IsTold, IsTurn, KeepsBytes};
ghost use Rattle.mx_model.specs.Checks.{is_halted};
ghost use Rattle.mx_model.specs.Reads.{flat_reads, map_in};
ghost use Rattle.mx_model.specs.Run.{all_halted, flat_kind, flat_made, flat_turn};
ghost use Rattle.mx_model.specs.State.{State, cache_at, flat, hart_at, module_at};
ghost use Rattle.mx_model.specs.Valid.{IsModule, IsValid};
ghost use Rattle.mx_words.specs.Need.{need};
ghost use Rattle.mx_words.specs.Reach.{stored};
ghost use Rattle.std.specs.Option.{option_map};
ghost use Rattle.std.specs.Prelude.{◌≡◌, ◌≢◌, ℕ, ◌+◌, ◌-◌, ◌*◌, ◌^◌, ◌<◌, ◌≤◌, false, length, slice_get, slice_index};
ghost use Rattle.std.specs.Prelude.{slice_range};
ghost use Rattle.mx_any.specs.Machines.{meaning};

use mx_check::Counts;
use mx_heap::Block;
use mx_machine::{
    HartPlace, HartView, Machine, StackArea, machine_is_valid, running_harts_are_current,
};
use mx_model::{Events, Frame, Gate, TurnKind};
use mx_packed::Packed;
use mx_segments::Segments;
use mx_table::PermTables;
use mx_trie::{Trie, Vector};
use mx_words::{Need, Perm, Shown, Span};

/// A machine over one of the three kinds of tables, with one of the three sizes of lookaside buffers.
#[derive(Drop)]
pub enum AnyMachine {
    /// Segments, with 8 spans in a buffer.
    Segments8(Machine<Segments, 8>),
    /// Segments, with 32 spans.
    Segments32(Machine<Segments, 32>),
    /// Segments, with 64 spans.
    Segments64(Machine<Segments, 64>),
    /// Multilevel tables, with 8 spans.
    Multilevel8(Machine<Trie<Vector>, 8>),
    /// Multilevel tables, with 32 spans.
    Multilevel32(Machine<Trie<Vector>, 32>),
    /// Multilevel tables, with 64 spans.
    Multilevel64(Machine<Trie<Vector>, 64>),
    /// Packed tables, with 8 spans.
    Packed8(Machine<Trie<Packed>, 8>),
    /// Packed tables, with 32 spans.
    Packed32(Machine<Trie<Packed>, 32>),
    /// Packed tables, with 64 spans.
    Packed64(Machine<Trie<Packed>, 64>),
}

macro_rules! each {
    ($any:expr, $machine:ident => $call:expr) => {
        match $any {
            AnyMachine::Segments8($machine) => $call,
            AnyMachine::Segments32($machine) => $call,
            AnyMachine::Segments64($machine) => $call,
            AnyMachine::Multilevel8($machine) => $call,
            AnyMachine::Multilevel32($machine) => $call,
            AnyMachine::Multilevel64($machine) => $call,
            AnyMachine::Packed8($machine) => $call,
            AnyMachine::Packed32($machine) => $call,
            AnyMachine::Packed64($machine) => $call,
        }
    };
}

/// Lets a machine go.
fn end<T: PermTables + Drop, const N: usize>(_machine: Machine<T, N>) {}

impl AnyMachine {
    /// One turn of the hart of that number, which may be none (docs/MACHINE.md, "One turn"). What stood in `out` is
    /// dropped; the
    /// console bytes and the note of the turn are put there. Fewer than 2^64 - 1 turns were made.
    ///
    /// Isolation: the turn leaves the words that the hart's domain may not write, but for a new block of an alloc,
    /// which lies in the
    /// domain's own heap area and is zero; and it keeps the hart's frames, pushes one with its fifteen registers, or
    /// gives up the top
    /// one and goes on as that says.
    pub fn step(&mut self, hart: u32, out: &mut Events) -> TurnKind
        requires { (meaning self.old).core.turns < 2 ^ 64 - 1 }
        ensures turn { meaning self.new ≡ flat_turn (meaning self.old) hart }
        ensures out { IsTold (flat_made (meaning self.old) hart) out.new }
        ensures kind { result ≡ flat_kind (meaning self.old) hart }
        ensures state { (s : State) → meaning self.old ≡ flat s →
            IsTurn s hart (meaning self.new) out.new result }
        ensures foreign { ForeignAfter (flat_reads (meaning self.old)) (meaning self.old).core hart
            (meaning self.new).core }
        ensures bytes { KeepsBytes result (meaning self.old) (meaning self.new) }
        ensures frames { FramesAfter (hart_at (meaning self.old).core hart)
            (hart_at (meaning self.new).core hart) }
        ensures others { (h : ℕ) → h ≢ hart →
            frames_at (meaning self.new).core h ≡ frames_at (meaning self.old).core h }
    {
        each!(self, machine => machine.step(hart, out))
    }

    /// The number of harts, 1 to 4.
    pub fn harts(&self) -> u32
        ensures { result ≡ length (meaning self.now).core.harts }
    {
        each!(self, machine => machine.harts())
    }

    /// The number of modules, 1 to 63.
    pub fn modules(&self) -> u32
        ensures { result ≡ length (meaning self.now).core.modules }
    {
        each!(self, machine => machine.modules())
    }

    /// The number of words of RAM, 1 to 2^24.
    pub fn words(&self) -> u32
        ensures { result ≡ (meaning self.now).core.size }
    {
        each!(self, machine => machine.words())
    }

    /// Whether all harts are halted.
    pub fn all_halted(&self) -> bool
        ensures { result ≡ all_halted (meaning self.now).core }
    {
        each!(self, machine => machine.all_halted())
    }

    /// How many turns were made.
    pub fn steps(&self) -> u64
        ensures { result ≡ (meaning self.now).core.turns }
    {
        each!(self, machine => machine.steps())
    }

    /// A hart as it stands.
    pub fn hart(&self, hart: u32) -> HartView
        requires { hart < length (meaning self.now).core.harts }
        ensures { IsViewOf (hart_at (meaning self.now).core hart) result }
    {
        each!(self, machine => machine.hart(hart))
    }

    /// Where a hart stands: what `hart` says of it but for frames and registers.
    pub fn place(&self, hart: u32) -> HartPlace
        requires { hart < length (meaning self.now).core.harts }
        ensures { IsPlaceOf (hart_at (meaning self.now).core hart) result }
    {
        each!(self, machine => machine.place(hart))
    }

    /// The code of the exit that ended a hart, where one did.
    pub fn exit(&self, hart: u32) -> Option<u32>
        requires { hart < length (meaning self.now).core.harts }
        ensures { result ≡ exit_of (hart_at (meaning self.now).core hart).status }
    {
        each!(self, machine => machine.exit(hart))
    }

    /// The registers x0 to x31 of a hart.
    pub fn regs(&self, hart: u32) -> &[u32; 32]
        requires { hart < length (meaning self.now).core.harts }
        ensures { result.now ≡ (hart_at (meaning self.now).core hart).regs }
    {
        each!(self, machine => machine.regs(hart))
    }

    /// The permission of a word in a domain's map.
    pub fn perm(&self, domain: u32, word: u32) -> Perm
        requires domain { IsModule (length (meaning self.now).core.modules) domain }
        requires word { word < (meaning self.now).core.size }
        ensures { result ≡ (flat_reads (meaning self.now)).perm domain word }
    {
        each!(self, machine => machine.perm(domain, word))
    }

    /// What a walk of the tables answers for a domain and a word: a span round the word on which the domain has one
    /// permission.
    pub fn span(&self, domain: u32, word: u32) -> Span
        requires domain { IsModule (length (meaning self.now).core.modules) domain }
        requires word { word < (meaning self.now).core.size }
        ensures { result ≡ (flat_reads (meaning self.now)).walk domain word }
    {
        each!(self, machine => machine.span(domain, word))
    }

    /// The first word after the run of words, round a word, on which a domain has that word's permission.
    pub fn perm_end(&self, domain: u32, word: u32) -> u32
        requires domain { IsModule (length (meaning self.now).core.modules) domain }
        requires word { word < (meaning self.now).core.size }
        ensures behind { word < result }
        ensures within { result ≤ (meaning self.now).core.size }
        ensures same { (w : ℕ) → word ≤ w → w < result →
            (flat_reads (meaning self.now)).perm domain w
            ≡ (flat_reads (meaning self.now)).perm domain word }
        ensures ends { result < (meaning self.now).core.size →
            (flat_reads (meaning self.now)).perm domain result
            ≢ (flat_reads (meaning self.now)).perm domain word }
    {
        each!(self, machine => machine.perm_end(domain, word))
    }

    /// The owner of a word, 0 for the supervisor.
    pub fn owner(&self, word: u32) -> u32
        requires { word < (meaning self.now).core.size }
        ensures { result ≡ (flat_reads (meaning self.now)).owner word }
    {
        each!(self, machine => machine.owner(word))
    }

    /// The first word after the run of words, round a word, that have its owner.
    pub fn owner_end(&self, word: u32) -> u32
        requires { word < (meaning self.now).core.size }
        ensures behind { word < result }
        ensures within { result ≤ (meaning self.now).core.size }
        ensures same { (w : ℕ) → word ≤ w → w < result →
            (flat_reads (meaning self.now)).owner w ≡ (flat_reads (meaning self.now)).owner word }
        ensures ends { result < (meaning self.now).core.size →
            (flat_reads (meaning self.now)).owner result
            ≢ (flat_reads (meaning self.now)).owner word }
    {
        each!(self, machine => machine.owner_end(word))
    }

    /// The byte at a place of RAM, counted from 0.
    pub fn byte(&self, at: u32) -> u8
        requires { at < 4 * (meaning self.now).core.size }
        ensures { result ≡ slice_index (meaning self.now).core.ram at }
    {
        each!(self, machine => machine.byte(at))
    }

    /// The bytes of RAM from place `first` on, `count` of them, which end in RAM.
    pub fn bytes(&self, first: u32, count: u32) -> &[u8]
        requires { first + count ≤ 4 * (meaning self.now).core.size }
        ensures { result.now ≡ slice_range (meaning self.now).core.ram first (first + count) }
    {
        each!(self, machine => machine.bytes(first, count))
    }

    /// How many checks of a hart its places answered, how many its lookaside buffer, and how many a walk of the tables.
    pub fn counts(&self, hart: u32) -> Counts
        requires { hart < length (meaning self.now).core.harts }
        ensures sidecar { result.sidecar ≡ (cache_at (meaning self.now).core hart).sidecar }
        ensures lookaside { result.lookaside ≡ (cache_at (meaning self.now).core hart).lookaside }
        ensures walks { result.walks ≡ (cache_at (meaning self.now).core hart).walks }
    {
        each!(self, machine => machine.counts(hart))
    }

    /// The stored item of the tables that decides a word in a domain's map.
    pub fn shown(&self, domain: u32, word: u32) -> Shown
        requires domain { IsModule (length (meaning self.now).core.modules) domain }
        requires word { word < (meaning self.now).core.size }
        ensures { result
            ≡ stored (meaning self.now).core.kind
            (map_in (meaning self.now).core.size (meaning self.now).maps domain) word }
    {
        each!(self, machine => machine.shown(domain, word))
    }

    /// What the tables take, which is what the maps need.
    pub fn used(&self) -> Need
        ensures { result ≡ need (meaning self.now).core.kind (meaning self.now).maps }
    {
        each!(self, machine => machine.used())
    }

    /// Whether a domain is killing: a fault in it makes it dead.
    pub fn kills(&self, domain: u32) -> bool
        requires { IsModule (length (meaning self.now).core.modules) domain }
        ensures { result ≡ (module_at (meaning self.now).core domain).kills }
    {
        self.stack_area(domain).kills
    }

    /// Whether a domain is dead.
    pub fn dead(&self, domain: u32) -> bool
        requires { IsModule (length (meaning self.now).core.modules) domain }
        ensures { result ≡ (module_at (meaning self.now).core domain).dead }
    {
        each!(self, machine => machine.dead(domain))
    }

    /// The gate at place `i` of the list, counted from 0. `None` exactly where `i` isn't below the number of gates.
    pub fn gate(&self, i: u32) -> Option<Gate>
        ensures { result ≡ slice_get (meaning self.now).core.gates i }
    {
        each!(self, machine => machine.gate(i))
    }

    /// The live block of a domain at place `i`, in the order of their addresses. `None` exactly where no more than `i`
    /// live.
    pub fn block(&self, domain: u32, i: u32) -> Option<Block>
        requires { IsModule (length (meaning self.now).core.modules) domain }
        ensures { option_map area_of result
            ≡ slice_get (module_at (meaning self.now).core domain).blocks i }
    {
        each!(self, machine => machine.block(domain, i))
    }

    /// The heap area of a domain, (0, 0) for none.
    pub fn heap_area(&self, domain: u32) -> Block
        requires { IsModule (length (meaning self.now).core.modules) domain }
        ensures { area_of result ≡ (module_at (meaning self.now).core domain).heap }
    {
        each!(self, machine => machine.heap_area(domain))
    }

    /// Frame `i` of a hart, from the bottom of its cross stack. `None` exactly where `i` isn't below the number of
    /// frames.
    pub fn frame(&self, hart: u32, i: u32) -> Option<Frame>
        requires { hart < length (meaning self.now).core.harts }
        ensures { result ≡ slice_get (hart_at (meaning self.now).core hart).frames i }
    {
        each!(self, machine => machine.frame(hart, i))
    }

    /// Whether a hart waits on a call and the hart `by` has heard it.
    pub fn heard(&self, hart: u32, by: u32) -> bool
        requires hart { hart < length (meaning self.now).core.harts }
        requires by { by < length (meaning self.now).core.harts }
        ensures { result ≡ was_heard (hart_at (meaning self.now).core hart).status by }
    {
        each!(self, machine => machine.heard(hart, by))
    }

    /// The stack area of a domain and whether it is killing. An area of no words is (0, 0).
    pub fn stack_area(&self, domain: u32) -> StackArea
        requires { IsModule (length (meaning self.now).core.modules) domain }
        ensures { IsAreaOf (module_at (meaning self.now).core domain) result }
    {
        each!(self, machine => machine.stack_area(domain))
    }

    /// Lets the machine go, with the memory that it holds. A caller whose value goes out of scope does the same; this
    /// call keeps the
    /// drop of nine kinds of machines out of the caller's proof.
    pub fn end(self) {
        each!(self, machine => end(machine))
    }
}

/// A law: what a machine means is valid, and has a map for each module, each as long as RAM, and an owner for each
/// word.
pub fn any_machine_is_valid(any: &AnyMachine)
    ensures valid { IsValid (meaning any.now).core }
    ensures maps { length (meaning any.now).maps ≡ length (meaning any.now).core.modules }
    ensures whole { (d : ℕ) → IsModule (length (meaning any.now).core.modules) d →
        length (map_in (meaning any.now).core.size (meaning any.now).maps d)
        ≡ (meaning any.now).core.size }
    ensures owners { length (meaning any.now).owners ≡ (meaning any.now).core.size }
{
    each!(any, machine => machine_is_valid(machine))
}

/// A law: the caches of what a machine means are coherent: each hart that isn't halted has on each word of each span
/// that it keeps the
/// permission that the span says, and none of its spans meets the range of a call in flight that it has heard.
pub fn any_harts_are_current(any: &AnyMachine)
    ensures coherent { flat_coherent (meaning any.now) }
    ensures spans { (h : ℕ) → is_halted (hart_at (meaning any.now).core h).status ≡ false →
        KeepsNoStaleSpan (meaning any.now) h }
{
    each!(any, machine => running_harts_are_current(machine))
}
