//! Heaps of live blocks, placed by first fit.

ghost use Rattle.std.specs.Prelude.{◌≡◌, ◌+◌, ◌<◌, ◌≤◌, ◌↔◌, [], None, Some, length, slice_get, IfOk, OnErr, IfSome};
ghost use Rattle.std.specs.Prelude.{IfNone, IsSome, IsNone, IsErrOf};
ghost use Rattle.std.specs.Option.{option_map};
ghost use Rattle.std.specs.Bool.{OnTrue, OnFalse};

use crate::block::{Block, HeapError};
use crate::list::{put_block, take_block};
use crate::parts::{BLOCKS, Part, block_place, fitting_hole, hole_around, join_holes, split_hole};
use mx_words::{MOST_BLOCKS, NoMemory};
use std::alloc::Global;
use std::marker::Model;

/// A heap area with its live blocks, at most 1024.
///
/// All memory is taken when the heap is made: no later call takes any.
#[derive(Drop)]
pub struct Heap {
    first: u32,
    count: u32,
    parts: Vec<Part>,
    live: u32,
    // The live parts alone.
    blocks: Vec<Block>,
}

impl Model for Heap {
    ghost use Rattle.std.specs.Vec.{vec_capacity};
    ghost use Rattle.mx_heap.specs.HeapState.{HeapState};

    ghost Value = { HeapState };

    ghost use Rattle.mx_heap.specs.Places.{blocks_of, AreStored};

    ghost view = { λ h. record {
      area = record { first = h.first; count = h.count };
      blocks = blocks_of h.parts.items;
    } };

    ghost invariant = { λ h. AreStored h.first h.count h.parts.items h.live (vec_capacity h.parts) h.blocks.items
        (vec_capacity h.blocks) };
}

impl Heap {
    ghost use Rattle.mx_words.specs.FirstFit.{place, with_block, without_block, block_words, most_blocks};
    ghost use Rattle.mx_words.specs.Ranges.{most_words};
    ghost use Rattle.mx_heap.specs.HeapState.{IsHeap, LiesIn, may_live, area_of};

    /// A heap over the RAM words `first` to `first + count - 1`, which end at most at 2^24, with no live block. An area
    /// of no words has no room for any block.
    pub fn new(alloc: Global, first: u32, count: u32) -> Result<Heap, NoMemory>
        requires { first + count ≤ most_words }
        ensures { IfOk result (λ h. h
            ≡ record { area = record { first = first; count = count }; blocks = [] }) }
    {
        let mut parts = Vec::with_capacity(alloc, 2 * MOST_BLOCKS + 1)?;
        let blocks = Vec::with_capacity(alloc, MOST_BLOCKS)?;
        if count > 0 {
            parts.push_reserved(Part {
                first,
                count,
                live: false,
            });
        }
        Ok(Heap {
            first,
            count,
            parts,
            live: 0,
            blocks,
        })
    }

    /// The lowest word at which a block of so many words, at least one, lies in the area and meets no live block.
    /// `NoRoom` exactly where there is no such word, `BlocksFull` exactly where there is one and 1024 blocks live.
    pub fn place(&self, words: u32) -> Result<u32, HeapError>
        requires { 0 < words }
        ensures ok { IfOk result (λ a. place self.now.area self.now.blocks words ≡ Some a) }
        ensures no_room { IsErrOf result HeapError.NoRoom
            ↔ IsNone (place self.now.area self.now.blocks words) }
        ensures full { IsErrOf result HeapError.BlocksFull
            ↔ (IsSome (place self.now.area self.now.blocks words) ×
            (length self.now.blocks ≡ most_blocks)) }
        ensures inside { IfOk result (λ a. LiesIn self.now.area a words) }
        ensures heap { IsHeap self.now }
    {
        match fitting_hole(&self.parts, self.live, words) {
            Ok(i) => Ok(self.parts[i].first),
            Err(refusal) => Err(refusal),
        }
    }

    /// Makes a block of so many words, at least one, live at the place of `place`, with the same refusals. A refusal
    /// changes nothing.
    pub fn alloc(&mut self, words: u32) -> Result<u32, HeapError>
        requires { 0 < words }
        ensures ok { IfOk result (λ a. place self.old.area self.old.blocks words ≡ Some a) }
        ensures no_room { IsErrOf result HeapError.NoRoom
            ↔ IsNone (place self.old.area self.old.blocks words) }
        ensures full { IsErrOf result HeapError.BlocksFull
            ↔ (IsSome (place self.old.area self.old.blocks words) ×
            (length self.old.blocks ≡ most_blocks)) }
        ensures inside { IfOk result (λ a. LiesIn self.old.area a words) }
        ensures heap { IsHeap self.old }
        ensures still { IsHeap self.new }

        ensures live { IfOk result (λ a. self.new
            ≡ record self.old
            { blocks = with_block (record { first = a; count = words }) self.old.blocks }) }
        ensures unchanged { OnErr result (self.new ≡ self.old) }
    {
        let i = match fitting_hole(&self.parts, self.live, words) {
            Ok(i) => i,
            Err(refusal) => return Err(refusal),
        };
        let first = self.parts[i].first;
        split_hole(&mut self.parts, i, first, words);
        put_block(
            &mut self.blocks,
            Block {
                first,
                count: words,
            },
        );
        self.live += 1;
        Ok(first)
    }

    /// Ends the live block that begins at word `first`, and tells its number of words. `None` exactly where no live
    /// block
    /// begins there; then nothing changes.
    pub fn free(&mut self, first: u32) -> Option<u32>
        ensures count { result ≡ block_words self.old.blocks first }
        ensures inside { IfSome result (λ n. (0 < n) × LiesIn self.old.area first n) }
        ensures ended { self.new ≡ record self.old { blocks = without_block first self.old.blocks } }
        ensures unchanged { IfNone result (self.new ≡ self.old) }
    {
        let i = match block_place(&self.parts, first) {
            Some(i) => i,
            None => return None,
        };
        let count = self.parts[i].count;
        join_holes(&mut self.parts, i);
        take_block(&mut self.blocks, first);
        self.live -= 1;
        Some(count)
    }

    /// The number of words of the live block that begins at word `first`. `None` exactly where there is none.
    pub fn block(&self, first: u32) -> Option<u32>
        ensures count { result ≡ block_words self.now.blocks first }
        ensures inside { IfSome result (λ n. (0 < n) × LiesIn self.now.area first n) }
    {
        match block_place(&self.parts, first) {
            Some(i) => Some(self.parts[i].count),
            None => None,
        }
    }

    /// The first word of the area and its number of words.
    pub fn area(&self) -> (u32, u32)
        ensures first { result.0 ≡ self.now.area.first }
        ensures count { result.1 ≡ self.now.area.count }
        ensures heap { IsHeap self.now }
    {
        (self.first, self.count)
    }

    /// The live block at place `i`, in the order of their addresses. `None` exactly where no more than `i` blocks live.
    pub fn nth(&self, i: u32) -> Option<Block>
        ensures block { option_map area_of result ≡ slice_get self.now.blocks i }
        ensures heap { IsHeap self.now }
    {
        self.blocks.get(i as usize).copied()
    }

    /// Makes this block live. False, with nothing changed, exactly where it has no word, isn't wholly in the area,
    /// meets
    /// a live block, or 1024 blocks live.
    pub fn restore(&mut self, first: u32, count: u32) -> bool
        ensures restored { result ≡ may_live self.old (record { first = first; count = count }) }
        ensures live { OnTrue result (self.new
            ≡ record self.old {
              blocks = with_block
                  (record { first = first; count = count }) self.old.blocks;
            }) }
        ensures unchanged { OnFalse result (self.new ≡ self.old) }
    {
        if count == 0 || self.live == BLOCKS {
            return false;
        }
        let i = match hole_around(&self.parts, first, count) {
            Some(i) => i,
            None => return false,
        };
        split_hole(&mut self.parts, i, first, count);
        put_block(&mut self.blocks, Block { first, count });
        self.live += 1;
        true
    }
}
