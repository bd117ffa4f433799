//! Frames of words out of one flat store, which the permission tables stand in.
#![tactic(auto)]

ghost use Rattle.std.specs.Prelude.{◌≡◌, ◌≢◌, ℕ, ◌+◌, ◌-◌, ◌<◌, ◌≤◌, ◌^◌, ◌↔◌, true, false, None, Some, length};
ghost use Rattle.std.specs.Prelude.{replicate, slice_index, slice_set, IsNone, IfSome, IfOk, OnSome, IfNone};
ghost use Rattle.mx_pool.specs.Frames.{frame_at, IsTaken, words_of, word_at, free_in};

use mx_words::NoMemory;
use std::alloc::Global;
use std::marker::Model;

/// Frames of `WORDS` words each, numbered from 0, each of them free or taken.
///
/// All memory is taken when the pool is made: no later call takes any, and none fails for want of it.
#[derive(Drop)]
pub struct Pool<const WORDS: usize> {
    words: Vec<u32>,
    taken: Vec<bool>,
    free: Vec<u32>,
    spare: u32,
}

impl<const WORDS: usize> Model for Pool<WORDS> {
    ghost use Rattle.mx_pool.specs.Frames.{Frames};
    ghost use Rattle.mx_pool.specs.Stored.{frames_of, IsPool};

    ghost Value = { Frames };

    ghost view = { λ p. frames_of WORDS p.words.items p.taken.items };

    ghost invariant = { λ p. IsPool WORDS p.words.items p.taken.items p.free.items p.spare };
}

impl<const WORDS: usize> Pool<WORDS> {
    /// A pool of that many frames, fewer than 2^30, all of them free.
    pub fn new(alloc: Global, frames: u32) -> Result<Pool<WORDS>, NoMemory>
        requires { frames < 2 ^ 30 }
        ensures { IfOk result (λ p. p ≡ replicate frames None) }
    {
        let number = frames as usize;
        let Some(size) = number.checked_mul(WORDS) else {
            return Err(NoMemory);
        };
        let words = zeros(alloc, size)?;
        let taken = no_marks(alloc, number)?;
        let free = downwards(alloc, frames)?;
        Ok(Pool {
            words,
            taken,
            free,
            spare: frames,
        })
    }

    /// Takes a free frame, whose words are 0 from then on. `None` exactly where no frame is free.
    pub fn take(&mut self) -> Option<u32>
        ensures none { IsNone result ↔ (free_in self.old ≡ 0) }
        ensures unchanged { IfNone result (self.new ≡ self.old) }

        // The frame was free, and the calls to come find it zeroed.
        ensures was_free { IfSome result (λ f. frame_at self.old f ≡ None) }
        ensures here { IfSome result (λ f. frame_at self.new f ≡ Some (replicate WORDS 0)) }
        ensures elsewhere { IfSome result (λ f. (g : ℕ) → g ≢ f →
            frame_at self.new g ≡ frame_at self.old g) }

        ensures fewer { OnSome result (free_in self.new + 1 ≡ free_in self.old) }
        ensures total { length self.new ≡ length self.old }
        ensures within { IfSome result (λ f. f < length self.old) }
        ensures small { IfSome result (λ f. f < 2 ^ 30) }
    {
        if self.spare == 0 {
            return None;
        }
        self.spare -= 1;
        let frame = self.free[self.spare as usize];
        self.taken[frame as usize] = true;
        fill_words(&mut self.words, frame as usize * WORDS, WORDS, 0);
        Some(frame)
    }

    /// Gives a taken frame back, which is free from then on.
    pub fn give(&mut self, frame: u32)
        requires { IsTaken self.old frame }
        ensures here { frame_at self.new frame ≡ None }
        ensures elsewhere { (g : ℕ) → g ≢ frame → frame_at self.new g ≡ frame_at self.old g }
        ensures more { free_in self.new ≡ free_in self.old + 1 }
        ensures total { length self.new ≡ length self.old }
    {
        self.taken[frame as usize] = false;
        self.free[self.spare as usize] = frame;
        self.spare += 1;
    }

    /// The word at place `at`, below `WORDS`, of a taken frame.
    pub fn get(&self, frame: u32, at: u32) -> u32
        requires taken { IsTaken self.now frame }
        requires within { at < WORDS }
        ensures { result ≡ word_at self.now frame at }
    {
        self.words[frame as usize * WORDS + at as usize]
    }

    /// Writes the word at place `at`, below `WORDS`, of a taken frame.
    pub fn set(&mut self, frame: u32, at: u32, value: u32)
        requires taken { IsTaken self.old frame }
        requires within { at < WORDS }
        ensures frame { frame_at self.new frame
            ≡ Some (slice_set (words_of self.old frame) at value) }
        ensures elsewhere { (g : ℕ) → g ≢ frame → frame_at self.new g ≡ frame_at self.old g }
        ensures here { word_at self.new frame at ≡ value }
        ensures others { (k : ℕ) → k ≢ at → word_at self.new frame k ≡ word_at self.old frame k }
        ensures free { free_in self.new ≡ free_in self.old }
        ensures total { length self.new ≡ length self.old }
    {
        self.words[frame as usize * WORDS + at as usize] = value;
    }

    /// Copies `count` words from place `from` on of a taken frame to place `to` on of a taken frame. The frames may be
    /// the same, and the
    /// places may overlap.
    pub fn copy(&mut self, source: u32, from: u32, target: u32, to: u32, count: u32)
        requires source { IsTaken self.old source }
        requires target { IsTaken self.old target }
        requires from { from + count ≤ WORDS }
        requires to { to + count ≤ WORDS }
        ensures copied { (k : ℕ) → k < count →
            word_at self.new target (to + k) ≡ word_at self.old source (from + k) }
        ensures below { (k : ℕ) → k < to → word_at self.new target k ≡ word_at self.old target k }
        ensures behind { (k : ℕ) → to + count ≤ k → k < WORDS →
            word_at self.new target k ≡ word_at self.old target k }
        ensures taken { IsTaken self.new target }
        ensures elsewhere { (g : ℕ) → g ≢ target → frame_at self.new g ≡ frame_at self.old g }
        ensures free { free_in self.new ≡ free_in self.old }
        ensures total { length self.new ≡ length self.old }
    {
        copy_words(
            &mut self.words,
            source as usize * WORDS + from as usize,
            target as usize * WORDS + to as usize,
            count as usize,
        );
    }

    /// Writes one value to `count` places from place `from` on of a taken frame.
    pub fn fill(&mut self, frame: u32, from: u32, count: u32, value: u32)
        requires taken { IsTaken self.old frame }
        requires within { from + count ≤ WORDS }
        ensures filled { (k : ℕ) → from ≤ k → k < from + count → word_at self.new frame k ≡ value }
        ensures below { (k : ℕ) → k < from → word_at self.new frame k ≡ word_at self.old frame k }
        ensures behind { (k : ℕ) → from + count ≤ k → k < WORDS →
            word_at self.new frame k ≡ word_at self.old frame k }
        ensures taken { IsTaken self.new frame }
        ensures elsewhere { (g : ℕ) → g ≢ frame → frame_at self.new g ≡ frame_at self.old g }
        ensures free { free_in self.new ≡ free_in self.old }
        ensures total { length self.new ≡ length self.old }
    {
        fill_words(
            &mut self.words,
            frame as usize * WORDS + from as usize,
            count as usize,
            value,
        );
    }

    /// Whether `count` words from place `from` on of a taken frame are equal.
    pub fn is_alike(&self, frame: u32, from: u32, count: u32) -> bool
        requires taken { IsTaken self.now frame }
        requires within { from + count ≤ WORDS }
        requires some { 0 < count }
        ensures yes { result ≡ true → (k : ℕ) → k < count →
            word_at self.now frame (from + k) ≡ word_at self.now frame from }
        ensures no { ((k : ℕ) → k < count →
            word_at self.now frame (from + k) ≡ word_at self.now frame from) → result ≡ true }
    {
        are_alike(
            &self.words,
            frame as usize * WORDS + from as usize,
            count as usize,
        )
    }

    /// The number of free frames.
    pub fn free_frames(&self) -> u32
        ensures { result ≡ free_in self.now }
    {
        self.spare
    }
}

// `size` words that are 0.
fn zeros(alloc: Global, size: usize) -> Result<Vec<u32>, NoMemory>
    ensures { IfOk result (λ v. v.items ≡ replicate size 0) }
{
    Ok(Vec::from_elem(alloc, 0, size)?)
}

// `number` marks, none of them set.
fn no_marks(alloc: Global, number: usize) -> Result<Vec<bool>, NoMemory>
    ensures { IfOk result (λ v. v.items ≡ replicate number false) }
{
    Ok(Vec::from_elem(alloc, false, number)?)
}

// The numbers of `frames` frames, the lowest last.
fn downwards(alloc: Global, frames: u32) -> Result<Vec<u32>, NoMemory>
    ensures len { IfOk result (λ v. length v.items ≡ frames) }
    ensures each { IfOk result (λ v. (i : ℕ) → i < frames →
        slice_index v.items i ≡ frames - 1 - i) }
{
    let mut free = zeros(alloc, frames as usize)?;
    for i in 0..frames {
        free[i as usize] = frames - 1 - i;
    }
    Ok(free)
}

// Makes `count` words from `first` on `value`.
fn fill_words(words: &mut [u32], first: usize, count: usize, value: u32)
    requires { first + count ≤ length words.old }
    ensures total { length words.new ≡ length words.old }
    ensures inside { (i : ℕ) → first ≤ i → i < first + count → slice_index words.new i ≡ value }
    ensures below { (i : ℕ) → i < first → slice_index words.new i ≡ slice_index words.old i }
    ensures behind { (i : ℕ) → first + count ≤ i →
        slice_index words.new i ≡ slice_index words.old i }
{
    let part = &mut words[first..first + count];
    part.fill(value);
}

// Whether `count` words from `first` on are equal.
fn are_alike(words: &[u32], first: usize, count: usize) -> bool
    requires inside { first + count ≤ length words.now }
    requires some { 0 < count }
    ensures yes { result ≡ true → (i : ℕ) → first ≤ i → i < first + count →
        slice_index words.now i ≡ slice_index words.now first }
    ensures no { ((i : ℕ) → first ≤ i → i < first + count →
        slice_index words.now i ≡ slice_index words.now first) → result ≡ true }
{
    let word = words[first];
    let mut alike = true;
    for i in first..first + count {
        alike = alike & (words[i] == word);
    }
    alike
}

// Copies `count` words from `first` on to `place` on.
fn copy_words(words: &mut [u32], first: usize, place: usize, count: usize)
    requires from { first + count ≤ length words.old }
    requires to { place + count ≤ length words.old }
    ensures total { length words.new ≡ length words.old }
    ensures copied { (i : ℕ) → i < count →
        slice_index words.new (place + i) ≡ slice_index words.old (first + i) }
    ensures below { (i : ℕ) → i < place → slice_index words.new i ≡ slice_index words.old i }
    ensures behind { (i : ℕ) → place + count ≤ i →
        slice_index words.new i ≡ slice_index words.old i }
{
    words.copy_within(first..first + count, place);
}
