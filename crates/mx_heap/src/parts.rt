//! The parts of a heap area: live blocks and holes, in the order of their addresses.

ghost use Rattle.std.specs.Prelude.{◌≡◌, ℕ, ◌+◌, ◌-◌, ◌*◌, ◌<◌, ◌≤◌, ◌^◌, length, nat_le, if◌then◌else◌, vec_len};
ghost use Rattle.std.specs.Prelude.{position};
ghost use Rattle.std.specs.Vec.{vec_capacity};
ghost use Rattle.mx_words.specs.FirstFit.{most_blocks};
ghost use Rattle.mx_heap.specs.Places.{fitting, is_hole_for, is_hole_around, is_block_at, part_at, hole_words};
ghost use Rattle.mx_heap.specs.Places.{with_hole, without_hole, split, joined, parts_to, AreInOrder};

use crate::block::HeapError;
use mx_words::MOST_BLOCKS;

// How many blocks live in one heap at most.
pub const BLOCKS: u32 = MOST_BLOCKS as u32;

// The words `first` to `first + count - 1`: a live block, or a hole.
#[derive(Clone, Copy, PartialEq, Eq, Debug)]
pub struct Part {
    pub first: u32,
    pub count: u32,
    pub live: bool,
}

// The place of the lowest hole with room for that many words.
pub fn hole_for(parts: &[Part], words: u32) -> Option<usize>
    ensures { result ≡ position (is_hole_for words) parts.now }
{
    parts.iter().position(|p| !p.live && words <= p.count)
}

// How many parts begin at the word or before it, by halves.
fn parts_to(parts: &[Part], word: u32) -> usize
    requires few { length parts.now ≤ 2 * most_blocks + 1 }
    requires rising { (i j : ℕ) → i ≤ j → j < length parts.now →
        (part_at parts.now i).first ≤ (part_at parts.now j).first }
    ensures place { result ≡ parts_to word parts.now }
    ensures within { result ≤ length parts.now }
{
    let mut low = 0;
    let mut width = parts.len();
    while width > 0 {
        let half = width - width / 2;
        low += step(parts[low + half - 1].first, word, half);
        width /= 2;
    }
    low
}

// The width where `first` is the word or lies before it, else 0. Said by what a subtraction borrows, since the
// processor would
// guess at a choice.
pub fn step(first: u32, word: u32, width: usize) -> usize
    requires { width < 2 ^ 32 }
    ensures { result ≡ (if nat_le first word then width else 0) }
{
    let mask = (first as u64).wrapping_sub(word as u64 + 1) >> 32;
    width & mask as usize
}

// The place of the hole that holds all words of a block, which has at least one.
pub fn hole_around(parts: &[Part], first: u32, count: u32) -> Option<usize>
    requires order { AreInOrder parts.now }
    requires some { 0 < count }
    ensures { result ≡ position (is_hole_around first count) parts.now }
{
    let behind = parts_to(parts, first);
    if behind > 0 && is_hole_around(&parts[behind - 1], first, count) {
        Some(behind - 1)
    } else {
        None
    }
}

// Whether the part is a hole that holds all words of a block.
fn is_hole_around(part: &Part, first: u32, count: u32) -> bool
    ensures { result ≡ is_hole_around first count part.now }
{
    let end = first as u64 + count as u64;
    !part.live && (part.first <= first && end <= part.first as u64 + part.count as u64)
}

// The place of the live block that begins at a word.
pub fn block_place(parts: &[Part], first: u32) -> Option<usize>
    requires { AreInOrder parts.now }
    ensures { result ≡ position (is_block_at first) parts.now }
{
    let behind = parts_to(parts, first);
    if behind > 0 && is_block_at(&parts[behind - 1], first) {
        Some(behind - 1)
    } else {
        None
    }
}

// Whether the part is the live block that begins at a word.
fn is_block_at(part: &Part, first: u32) -> bool
    ensures { result ≡ is_block_at first part.now }
{
    part.live && part.first == first
}

// The place of the lowest hole for a block, where no more than 1023 blocks live.
pub fn fitting_hole(parts: &[Part], live: u32, words: u32) -> Result<usize, HeapError>
    ensures { result ≡ fitting (position (is_hole_for words) parts.now) live }
{
    match hole_for(parts, words) {
        None => Err(HeapError::NoRoom),
        Some(_) if live == BLOCKS => Err(HeapError::BlocksFull),
        Some(i) => Ok(i),
    }
}

// The words of part `i` where it is a hole, else 0.
fn words_of_hole(parts: &[Part], i: usize) -> u32
    ensures { result ≡ hole_words parts.now i }
{
    if i < parts.len() && !parts[i].live {
        parts[i].count
    } else {
        0
    }
}

// Puts a hole at place `i`, where it has a word.
fn put_hole(parts: &mut Vec<Part>, i: usize, first: u32, count: u32)
    requires place { i ≤ vec_len parts.old }
    requires room { vec_len parts.old < vec_capacity parts.old }
    ensures items { parts.new.items ≡ with_hole parts.old.items i first count }
    ensures len { vec_len parts.new ≤ vec_len parts.old + 1 }
    ensures not_less { vec_len parts.old ≤ vec_len parts.new }
    ensures capacity { vec_capacity parts.old ≤ vec_capacity parts.new }
{
    if count > 0 {
        let part = Part {
            first,
            count,
            live: false,
        };
        match parts.insert(i, part) {
            Ok(()) => {}
            Err(_) => unreachable!(),
        }
    }
}

// Takes part `i` out, where it is a hole of `count` words and so has one.
fn cut_hole(parts: &mut Vec<Part>, i: usize, count: u32)
    requires { 0 < count → i < vec_len parts.old }
    ensures items { parts.new.items ≡ without_hole parts.old.items i count }
    ensures len { vec_len parts.old ≤ vec_len parts.new + 1 }
    ensures capacity { vec_capacity parts.new ≡ vec_capacity parts.old }
{
    if count > 0 {
        parts.remove(i);
    }
}

// Makes a block live in the hole at place `i`, which holds its words.
pub fn split_hole(parts: &mut Vec<Part>, i: usize, first: u32, count: u32)
    requires place { i < vec_len parts.old }
    requires room { vec_len parts.old + 2 ≤ vec_capacity parts.old }
    requires begins { (part_at parts.old.items i).first ≤ first }
    requires ends { first + count ≤ (part_at parts.old.items i).first
        + (part_at parts.old.items i).count }
    requires fits { (part_at parts.old.items i).first + (part_at parts.old.items i).count < 2 ^ 32 }
    ensures items { parts.new.items ≡ split parts.old.items i first count }
    ensures capacity { vec_capacity parts.old ≤ vec_capacity parts.new }
{
    let hole = parts[i];
    parts[i] = Part {
        first,
        count,
        live: true,
    };
    put_hole(
        parts,
        i + 1,
        first + count,
        hole.first + hole.count - (first + count),
    );
    put_hole(parts, i, hole.first, first - hole.first);
}

// Ends the live block at place `i`: its words and the holes on both sides become one hole.
pub fn join_holes(parts: &mut Vec<Part>, i: usize)
    requires place { i < vec_len parts.old }
    requires low { hole_words parts.old.items (i - 1) ≤ (part_at parts.old.items i).first }
    requires high { hole_words parts.old.items (i - 1) + (part_at parts.old.items i).count
        + hole_words parts.old.items (i + 1) < 2 ^ 32 }
    ensures items { parts.new.items ≡ joined parts.old.items i }
    ensures capacity { vec_capacity parts.new ≡ vec_capacity parts.old }
{
    let block = parts[i];
    // The first part has none before it: the block itself is no hole.
    let before = words_of_hole(parts, i.saturating_sub(1));
    let behind = words_of_hole(parts, i + 1);
    parts[i] = Part {
        first: block.first - before,
        count: before + block.count + behind,
        live: false,
    };
    cut_hole(parts, i + 1, behind);
    cut_hole(parts, i.saturating_sub(1), before);
}
