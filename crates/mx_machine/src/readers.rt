//! What is read of a machine. In every call a hart is below `harts()`, a domain is from 1 to `modules()`, and a word is
//! below `words()`;
//! word w of RAM has the address 0x80000000 + 4w. A place in a list may be any number.
ghost use Rattle.std.specs.Prelude.{◌≡◌, ◌≢◌, ℕ, false, ◌+◌, ◌*◌, ◌<◌, ◌≤◌, length, slice_get, slice_index};
ghost use Rattle.std.specs.Prelude.{slice_range};
ghost use Rattle.std.specs.Option.{option_map};
ghost use Rattle.mx_words.specs.Need.{need};
ghost use Rattle.mx_words.specs.Reach.{stored};
ghost use Rattle.mx_table.specs.Tables.{IsDomain};
ghost use Rattle.mx_heap.specs.HeapState.{area_of};
ghost use Rattle.mx_model.specs.Checks.{is_halted};
ghost use Rattle.mx_model.specs.Reads.{flat_reads, map_in};
ghost use Rattle.mx_model.specs.Run.{all_halted};
ghost use Rattle.mx_model.specs.State.{cache_at, hart_at, module_at};
ghost use Rattle.mx_model.specs.Valid.{IsModule, IsValid};
ghost use Rattle.mx_coherence.specs.Coherence.{KeepsNoStaleSpan, flat_coherent};
ghost use Rattle.mx_machine.specs.Readings.{IsAreaOf, IsPlaceOf, IsViewOf, exit_of, was_heard};

use crate::{HartPlace, HartView, Machine, StackArea};
use mx_check::Counts;
use mx_coherence::spans_are_coherent;
use mx_heap::Block;
use mx_model::{Frame, Gate};
use mx_table::PermTables;
use mx_words::{Need, Perm, Shown, Span};

impl<T: PermTables, const N: usize> Machine<T, N> {
    /// The number of harts, 1 to 4.
    pub fn harts(&self) -> u32
        ensures { result ≡ length self.now.core.harts }
    {
        self.bare.harts.len()
    }

    /// The number of modules, 1 to 63.
    pub fn modules(&self) -> u32
        ensures { result ≡ length self.now.core.modules }
    {
        self.bare.bus.supervisor.checker.tables().modules()
    }

    /// The number of words of RAM, 1 to 2^24.
    pub fn words(&self) -> u32
        ensures { result ≡ self.now.core.size }
    {
        self.bare.bus.supervisor.checker.tables().words()
    }

    /// Whether all harts are halted.
    pub fn all_halted(&self) -> bool
        ensures { result ≡ all_halted self.now.core }
    {
        self.bare.harts.all_halted()
    }

    /// How many turns were made.
    pub fn steps(&self) -> u64
        ensures { result ≡ self.now.core.turns }
    {
        self.bare.steps
    }

    /// A hart as it stands.
    pub fn hart(&self, hart: u32) -> HartView
        requires { hart < length self.now.core.harts }
        ensures { IsViewOf (hart_at self.now.core hart) result }
    {
        self.bare.harts.view(hart)
    }

    /// Where a hart stands: what `hart` says of it but for frames and registers.
    pub fn place(&self, hart: u32) -> HartPlace
        requires { hart < length self.now.core.harts }
        ensures { IsPlaceOf (hart_at self.now.core hart) result }
    {
        self.bare.harts.place(hart)
    }

    /// The code of the exit that ended a hart, where one did.
    pub fn exit(&self, hart: u32) -> Option<u32>
        requires { hart < length self.now.core.harts }
        ensures { result ≡ exit_of (hart_at self.now.core hart).status }
    {
        self.bare.harts.exit(hart)
    }

    /// The registers x0 to x31 of a hart.
    pub fn regs(&self, hart: u32) -> &[u32; 32]
        requires { hart < length self.now.core.harts }
        ensures { result.now ≡ (hart_at self.now.core hart).regs }
    {
        self.bare.harts.regs(hart)
    }

    /// The permission of a word in a domain's map.
    pub fn perm(&self, domain: u32, word: u32) -> Perm
        requires domain { IsModule (length self.now.core.modules) domain }
        requires word { word < self.now.core.size }
        ensures { result ≡ (flat_reads self.now).perm domain word }
    {
        self.bare.bus.supervisor.checker.perm(domain, word)
    }

    /// What a walk of the tables answers for a domain and a word: a span round the word on which the domain has one
    /// permission.
    pub fn span(&self, domain: u32, word: u32) -> Span
        requires domain { IsModule (length self.now.core.modules) domain }
        requires word { word < self.now.core.size }
        ensures { result ≡ (flat_reads self.now).walk domain word }
    {
        self.bare.bus.supervisor.checker.tables().span(domain, word)
    }

    /// The first word after the run of words, round a word, on which a domain has that word's permission. It goes from
    /// span to span.
    pub fn perm_end(&self, domain: u32, word: u32) -> u32
        requires domain { IsModule (length self.now.core.modules) domain }
        requires word { word < self.now.core.size }
        ensures behind { word < result }
        ensures within { result ≤ self.now.core.size }
        ensures same { (w : ℕ) → word ≤ w → w < result →
            (flat_reads self.now).perm domain w ≡ (flat_reads self.now).perm domain word }
        ensures ends { result < self.now.core.size →
            (flat_reads self.now).perm domain result ≢ (flat_reads self.now).perm domain word }
    {
        machine_is_valid(self);
        let words = self.words();
        let span = self.span(domain, word);
        let mut end = span.first + span.count;
        'spans: while end < words {
            let next = self.span(domain, end);
            if next.perm != span.perm {
                return end;
            }
            end = next.first + next.count;
        }
        end
    }

    /// The owner of a word, 0 for the supervisor.
    pub fn owner(&self, word: u32) -> u32
        requires { word < self.now.core.size }
        ensures { result ≡ (flat_reads self.now).owner word }
    {
        self.bare.bus.supervisor.owners.owner(word)
    }

    /// The first word after the run of words, round a word, that have its owner.
    pub fn owner_end(&self, word: u32) -> u32
        requires { word < self.now.core.size }
        ensures behind { word < result }
        ensures within { result ≤ self.now.core.size }
        ensures same { (w : ℕ) → word ≤ w → w < result →
            (flat_reads self.now).owner w ≡ (flat_reads self.now).owner word }
        ensures ends { result < self.now.core.size →
            (flat_reads self.now).owner result ≢ (flat_reads self.now).owner word }
    {
        self.bare.bus.supervisor.owners.run_end(word)
    }

    /// The byte at a place of RAM, counted from 0.
    pub fn byte(&self, at: u32) -> u8
        requires { at < 4 * self.now.core.size }
        ensures { result ≡ slice_index self.now.core.ram at }
    {
        self.bare.bus.supervisor.ram.byte(at)
    }

    /// The bytes of RAM from place `first` on, `count` of them, which end in RAM.
    pub fn bytes(&self, first: u32, count: u32) -> &[u8]
        requires { first + count ≤ 4 * self.now.core.size }
        ensures { result.now ≡ slice_range self.now.core.ram first (first + count) }
    {
        self.bare.bus.supervisor.ram.bytes(first, count)
    }

    /// How many checks of a hart its places answered, how many its lookaside buffer, and how many a walk of the tables.
    pub fn counts(&self, hart: u32) -> Counts
        requires { hart < length self.now.core.harts }
        ensures sidecar { result.sidecar ≡ (cache_at self.now.core hart).sidecar }
        ensures lookaside { result.lookaside ≡ (cache_at self.now.core hart).lookaside }
        ensures walks { result.walks ≡ (cache_at self.now.core hart).walks }
    {
        self.bare.bus.supervisor.checker.counts(hart)
    }

    /// The stored item of the tables that decides a word in a domain's map.
    pub fn shown(&self, domain: u32, word: u32) -> Shown
        requires domain { IsModule (length self.now.core.modules) domain }
        requires word { word < self.now.core.size }
        ensures { result
            ≡ stored self.now.core.kind (map_in self.now.core.size self.now.maps domain) word }
    {
        self.bare
            .bus
            .supervisor
            .checker
            .tables()
            .shown(domain, word)
    }

    /// What the tables take, which is what the maps need.
    pub fn used(&self) -> Need
        ensures { result ≡ need self.now.core.kind self.now.maps }
    {
        self.bare.bus.supervisor.checker.tables().used()
    }

    /// Whether a domain is killing: a fault in it makes it dead.
    pub fn kills(&self, domain: u32) -> bool
        requires { IsModule (length self.now.core.modules) domain }
        ensures { result ≡ (module_at self.now.core domain).kills }
    {
        self.bare.stacks.area(domain).kills
    }

    /// Whether a domain is dead.
    pub fn dead(&self, domain: u32) -> bool
        requires { IsModule (length self.now.core.modules) domain }
        ensures { result ≡ (module_at self.now.core domain).dead }
    {
        self.bare.is_dead(domain)
    }

    /// The gate at place `i` of the list, counted from 0. `None` exactly where `i` isn't below the number of gates.
    pub fn gate(&self, i: u32) -> Option<Gate>
        ensures { result ≡ slice_get self.now.core.gates i }
    {
        self.bare.bus.supervisor.gate(i)
    }

    /// The live block of a domain at place `i`, in the order of their addresses. `None` exactly where no more than `i`
    /// live.
    pub fn block(&self, domain: u32, i: u32) -> Option<Block>
        requires { IsModule (length self.now.core.modules) domain }
        ensures { option_map area_of result ≡ slice_get (module_at self.now.core domain).blocks i }
    {
        self.bare.bus.supervisor.block(domain, i)
    }

    /// The heap area of a domain, (0, 0) for none.
    pub fn heap_area(&self, domain: u32) -> Block
        requires { IsModule (length self.now.core.modules) domain }
        ensures { area_of result ≡ (module_at self.now.core domain).heap }
    {
        self.bare.bus.supervisor.heap_area(domain)
    }

    /// Frame `i` of a hart, from the bottom of its cross stack. `None` exactly where `i` isn't below the number of
    /// frames.
    pub fn frame(&self, hart: u32, i: u32) -> Option<Frame>
        requires { hart < length self.now.core.harts }
        ensures { result ≡ slice_get (hart_at self.now.core hart).frames i }
    {
        self.bare.harts.frame(hart, i)
    }

    /// Whether a hart waits on a call and the hart `by` has heard it.
    pub fn heard(&self, hart: u32, by: u32) -> bool
        requires hart { hart < length self.now.core.harts }
        requires by { by < length self.now.core.harts }
        ensures { result ≡ was_heard (hart_at self.now.core hart).status by }
    {
        self.bare.bus.supervisor.checker.heard(hart, by)
    }

    /// The stack area of a domain and whether it is killing. An area of no words is (0, 0).
    pub fn stack_area(&self, domain: u32) -> StackArea
        requires { IsModule (length self.now.core.modules) domain }
        ensures { IsAreaOf (module_at self.now.core domain) result }
    {
        let area = self.bare.stacks.area(domain);
        if area.words == 0 {
            StackArea { first: 0, ..area }
        } else {
            area
        }
    }
}

/// A law: what a machine means is valid, and has a map for each module, each as long as RAM, and an owner for each
/// word.
pub fn machine_is_valid<T: PermTables, const N: usize>(machine: &Machine<T, N>)
    ensures valid { IsValid machine.now.core }
    ensures maps { length machine.now.maps ≡ length machine.now.core.modules }
    ensures whole { (d : ℕ) → IsModule (length machine.now.core.modules) d →
        length (map_in machine.now.core.size machine.now.maps d) ≡ machine.now.core.size }
    ensures owners { length machine.now.owners ≡ machine.now.core.size }
{
    let _ = &machine.bare;
}

/// A law: the caches of what a machine means are coherent. So each hart that isn't halted has on each word of each span
/// that it keeps
/// the permission that the span says, by the maps as they are now, and none of its spans meets the range of a call in
/// flight that it
/// has heard.
pub fn running_harts_are_current<T: PermTables, const N: usize>(machine: &Machine<T, N>)
    ensures coherent { flat_coherent machine.now }
    ensures spans { (h : ℕ) → is_halted (hart_at machine.now.core h).status ≡ false →
        KeepsNoStaleSpan machine.now h }
{
    spans_are_coherent();
    let _ = &machine.bare;
}
