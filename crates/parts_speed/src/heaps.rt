//! Blocks of a heap.

use mx_heap::Heap;
use std::alloc::Global;

/// A heap of 4096 words with so many live blocks of one word, at the even words. The worst layout for a search of two
/// words: a
/// hole of one word stands after each block but the last. `None` where there is no memory.
pub fn with_holes(alloc: Global, blocks: u32) -> Option<Heap> {
    let mut heap = match Heap::new(alloc, 0, 4096) {
        Ok(heap) => heap,
        Err(_) => return None,
    };
    for i in 0..blocks {
        heap.restore(i.wrapping_mul(2), 1);
    }
    Some(heap)
}

/// Makes a block of two words after the others and ends it, so often. The answer is how often there was one to end.
pub fn blocks_ended(heap: &mut Heap, rounds: u64) -> u64 {
    let mut ended = 0u64;
    for _ in 0..rounds {
        let Ok(first) = heap.alloc(2) else {
            break;
        };
        if heap.free(first).is_some() {
            ended = ended.wrapping_add(1);
        }
    }
    ended
}

/// How often there was a place for two words.
pub fn places_found(heap: &Heap, rounds: u64) -> u64 {
    let mut found = 0u64;
    for _ in 0..rounds {
        if heap.place(2).is_ok() {
            found = found.wrapping_add(1);
        }
    }
    found
}

/// How often a word drawn from the first 2048 began a block, and how often a place drawn from as many had one.
pub fn blocks_told(heap: &Heap, rounds: u64) -> (u64, u64) {
    let mut begun = 0u64;
    let mut listed = 0u64;
    for i in 0..rounds {
        if heap.block(draw(i)).is_some() {
            begun = begun.wrapping_add(1);
        }
        if heap.nth(draw(i)).is_some() {
            listed = listed.wrapping_add(1);
        }
    }
    (begun, listed)
}

/// A number below 2048 for each round, with no order that the processor could guess.
fn draw(i: u64) -> u32 {
    (i.wrapping_mul(0x9E37_79B9_7F4A_7C15) >> 53) as u32
}
