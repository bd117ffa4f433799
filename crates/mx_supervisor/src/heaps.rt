//! The heaps of all modules.
ghost use Rattle.std.specs.Prelude.{◌≡◌, ℕ, ◌+◌, ◌<◌, ◌≤◌, ◌↔◌, true, [], ◌∷◌, ◌++◌, length, slice_get, slice_set};
ghost use Rattle.std.specs.Prelude.{IfOk, IsNone, IsSome, IsErrOf, IfSome, Some};
ghost use Rattle.std.specs.Option.{option_map};
ghost use Rattle.mx_words.specs.FirstFit.{without_block, block_words, most_blocks};
ghost use Rattle.mx_words.specs.Limits.{most_modules};
ghost use Rattle.mx_heap.specs.HeapState.{LiesIn, area_of, may_live};
ghost use Rattle.mx_supervisor.specs.Heaps.{told_heap, heap_in, heap_at, room_in, with_live, with_blocks_at};
ghost use Rattle.mx_supervisor.specs.Heaps.{with_block_at};
ghost use Rattle.mx_supervisor.specs.Told.{IsTold};

use arrayvec::ArrayVec;
use mx_heap::{Block, Heap, HeapError};
use mx_words::MOST_MODULES;
use std::marker::Model;

/// The area of no words.
const NO_AREA: Block = Block { first: 0, count: 0 };

/// A list of heaps, one for each module in the modules' order. An area of no words counts as (0, 0).
#[derive(Drop)]
pub struct Heaps {
    // A slot in use holds a heap: `Option` is there because a heap has no default.
    slots: ArrayVec<Option<Heap>, MOST_MODULES>,
}

impl Model for Heaps {
    ghost use Rattle.std.specs.Prelude.{List};
    ghost use Rattle.std.specs.Prelude.{map as list_map};
    ghost use Rattle.mx_heap.specs.HeapState.{HeapState};
    ghost use Rattle.mx_supervisor.specs.Heaps.{heap_in};

    ghost Value = { List HeapState };

    ghost view = { λ h. list_map heap_in h.slots.items };
}

impl Heaps {
    /// No heap.
    pub fn new() -> Heaps
        ensures { result ≡ [] }
    {
        Heaps {
            slots: ArrayVec::new(),
        }
    }

    /// Appends the heap of the next module. Fewer than the greatest number of modules are held.
    pub fn push(&mut self, heap: Heap)
        requires { length self.old < most_modules }
        ensures { self.new ≡ self.old ++ told_heap heap ∷ [] }
    {
        self.slots.push(Some(heap));
    }

    /// The first word and the number of words of a domain's heap area, (0, 0) for none. Domains count from 1.
    pub fn area(&self, domain: u32) -> Block
        requires { 1 ≤ domain }
        ensures { area_of result ≡ (heap_at self.now domain).area }
    {
        match self.slots.get(domain as usize - 1) {
            Some(slot) => area_in(slot),
            None => NO_AREA,
        }
    }

    /// As `Heap::place`, for a domain.
    pub(crate) fn place(&self, domain: u32, words: u32) -> Result<u32, HeapError>
        requires domain { 1 ≤ domain }
        requires words { 0 < words }
        ensures ok { IfOk result (λ a. room_in (heap_at self.now domain) words ≡ Some a) }
        ensures no_room { IsErrOf result HeapError.NoRoom
            ↔ IsNone (room_in (heap_at self.now domain) words) }
        ensures full { IsErrOf result HeapError.BlocksFull
            ↔ (IsSome (room_in (heap_at self.now domain) words)
            × (length (heap_at self.now domain).blocks ≡ most_blocks)) }
        ensures inside { IfOk result (λ a. LiesIn (heap_at self.now domain).area a words) }
        ensures few { length (heap_at self.now domain).blocks ≤ most_blocks }
    {
        match self.slots.get(domain as usize - 1) {
            Some(slot) => place_in(slot, words),
            None => Err(HeapError::NoRoom),
        }
    }

    /// Makes a block of a domain live at a word that `place` found for it, without a second search for the place.
    pub(crate) fn alloc(&mut self, domain: u32, first: u32, words: u32)
        requires domain { 1 ≤ domain }
        requires there { domain ≤ length self.old }
        ensures { may_live (heap_at self.old domain) (record { first = first; count = words })
            ≡ true →
            self.new ≡ with_block_at domain (record { first = first; count = words }) self.old }
    {
        let slot = &mut self.slots.as_mut_slice()[domain as usize - 1];
        alloc_in(slot, first, words);
    }

    /// The number of words of a domain's live block that begins at a word.
    pub(crate) fn block(&self, domain: u32, first: u32) -> Option<u32>
        requires { 1 ≤ domain }
        ensures count { result ≡ block_words (heap_at self.now domain).blocks first }
        ensures inside { IfSome result
            (λ n. (0 < n) × LiesIn (heap_at self.now domain).area first n) }
    {
        match self.slots.get(domain as usize - 1) {
            Some(slot) => block_in(slot, first),
            None => None,
        }
    }

    /// Ends a domain's live block that begins at a word, if there is one.
    pub(crate) fn free(&mut self, domain: u32, first: u32)
        requires domain { 1 ≤ domain }
        requires there { domain ≤ length self.old }
        ensures { self.new ≡ with_blocks_at domain
            (without_block first (heap_at self.old domain).blocks) self.old }
    {
        let slot = &mut self.slots.as_mut_slice()[domain as usize - 1];
        free_in(slot, first);
    }

    /// The live block of a domain at place `i`, in the order of their addresses.
    pub(crate) fn nth(&self, domain: u32, i: u32) -> Option<Block>
        requires { 1 ≤ domain }
        ensures { option_map area_of result ≡ slice_get (heap_at self.now domain).blocks i }
    {
        match self.slots.get(domain as usize - 1) {
            Some(slot) => nth_in(slot, i),
            None => None,
        }
    }
}

/// The area of the heap in a slot.
fn area_in(slot: &Option<Heap>) -> Block
    ensures { area_of result ≡ (heap_in slot.now).area }
{
    let Some(heap) = slot else {
        return NO_AREA;
    };
    let (first, count) = heap.area();
    if count == 0 {
        return NO_AREA;
    }
    Block { first, count }
}

/// As `Heap::place`, for the heap in a slot.
fn place_in(slot: &Option<Heap>, words: u32) -> Result<u32, HeapError>
    requires { 0 < words }
    ensures ok { IfOk result (λ a. room_in (heap_in slot.now) words ≡ Some a) }
    ensures no_room { IsErrOf result HeapError.NoRoom ↔ IsNone (room_in (heap_in slot.now) words) }
    ensures full { IsErrOf result HeapError.BlocksFull
        ↔ (IsSome (room_in (heap_in slot.now) words)
        × (length (heap_in slot.now).blocks ≡ most_blocks)) }
    ensures inside { IfOk result (λ a. LiesIn (heap_in slot.now).area a words) }
    ensures few { length (heap_in slot.now).blocks ≤ most_blocks }
{
    match slot {
        Some(heap) => heap.place(words),
        None => Err(HeapError::NoRoom),
    }
}

/// As `Heap::restore`, for the heap in a slot.
fn alloc_in(slot: &mut Option<Heap>, first: u32, words: u32)
    ensures { may_live (heap_in slot.old) (record { first = first; count = words }) ≡ true →
        heap_in slot.new
        ≡ with_live (record { first = first; count = words }) (heap_in slot.old) }
{
    if let Some(heap) = slot {
        // That the block may live is known from `place`.
        let _ = heap.restore(first, words);
    }
}

/// As `Heap::block`, for the heap in a slot.
fn block_in(slot: &Option<Heap>, first: u32) -> Option<u32>
    ensures count { result ≡ block_words (heap_in slot.now).blocks first }
    ensures inside { IfSome result (λ n. (0 < n) × LiesIn (heap_in slot.now).area first n) }
{
    match slot {
        Some(heap) => heap.block(first),
        None => None,
    }
}

/// As `Heap::free`, for the heap in a slot.
fn free_in(slot: &mut Option<Heap>, first: u32)
    ensures { heap_in slot.new
        ≡ record (heap_in slot.old) { blocks = without_block first (heap_in slot.old).blocks } }
{
    if let Some(heap) = slot {
        heap.free(first);
    }
}

/// As `Heap::nth`, for the heap in a slot.
fn nth_in(slot: &Option<Heap>, i: u32) -> Option<Block>
    ensures { option_map area_of result ≡ slice_get (heap_in slot.now).blocks i }
{
    match slot {
        Some(heap) => heap.nth(i),
        None => None,
    }
}

/// A law: the blocks of each heap lie apart in its area and are at most 1024, and an area of no words is (0, 0). A
/// machine's state
/// is valid only with such heaps.
pub fn heaps_of(heaps: &Heaps)
    ensures { (domain : ℕ) → IsTold (heap_at heaps.now domain) }
{
    for i in 0..heaps.slots.len() {
        match heaps.slots.get(i) {
            Some(slot) => told_in(slot),
            None => {}
        }
    }
}

/// The heap in a slot is one, of which an area of no words is (0, 0).
fn told_in(slot: &Option<Heap>)
    ensures { IsTold (heap_in slot.now) }
{
    let Some(heap) = slot else {
        return;
    };
    // What is true of the heap is known from any call.
    let _ = heap.area();
}
