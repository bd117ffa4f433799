//! The owner of each word of RAM, as runs.

ghost use Rattle.std.specs.List.{list_all, range_with_len};
ghost use Rattle.std.specs.Prelude.{◌≡◌, ◌≢◌, ℕ, ◌+◌, ◌<◌, ◌≤◌, ◌↔◌, ◌==◌, length, replicate, slice_index, IsTrue};
ghost use Rattle.std.specs.Prelude.{IfOk, OnOk, OnErr, IsErr};

use crate::runs::{Run, put_given, room, run_place};
use mx_words::{MOST_OWNER_RUNS, NoMemory};
use std::alloc::Global;
use std::marker::Model;
use std::mem;

/// A give would have made more than 4096 maximal runs of words with one owner.
#[derive(Clone, Copy, PartialEq, Eq, Debug)]
pub struct OwnersFull;

/// The owner of each word of RAM: a domain's number, where 0 is the supervisor.
///
/// All memory is taken when it is made: no later call takes any.
#[derive(Drop)]
pub struct Owners {
    words: u32,
    runs: Vec<Run>,
    // Where a give puts the runs that it makes.
    next: Vec<Run>,
}

impl Model for Owners {
    ghost use Rattle.std.specs.Prelude.{ℕ, List};
    ghost use Rattle.std.specs.Vec.{vec_capacity};
    ghost use Rattle.mx_owners.specs.OwnerRuns.{owners_in, AreOwners};

    ghost Value = { List ℕ };

    ghost view = { λ o. owners_in o.words o.runs.items };

    ghost invariant = { λ o.
        AreOwners o.words o.runs.items (vec_capacity o.runs) (vec_capacity o.next) };
}

impl Owners {
    ghost use Rattle.mx_words.specs.Newest.{laid};
    ghost use Rattle.mx_words.specs.Ranges.{most_words};
    ghost use Rattle.mx_words.specs.Runs.{most_owner_runs, owner_runs};

    /// Owners of `words` words of RAM, 1 to 2^24: the supervisor owns them all.
    pub fn new(alloc: Global, words: u32) -> Result<Owners, NoMemory>
        requires some { 0 < words }
        requires in_ram { words ≤ most_words }
        ensures { IfOk result (λ o. o ≡ replicate words 0) }
    {
        let mut runs = room(alloc)?;
        let next = room(alloc)?;
        runs.push_reserved(Run {
            end: words,
            owner: 0,
        });
        Ok(Owners { words, runs, next })
    }

    /// Whether this domain owns each word of a range that isn't empty and lies in RAM.
    pub fn owns(&self, domain: u32, first: u32, count: u32) -> bool
        requires some { 0 < count }
        requires in_ram { first + count ≤ length self.now }
        ensures each { IsTrue result
            ↔ ((w : ℕ) → first ≤ w → w < first + count → slice_index self.now w ≡ domain) }
        ensures all { result ≡ list_all (λ w. slice_index self.now w == domain)
            (range_with_len first count) }
    {
        self.has_in_a_run(domain, first, count)
    }

    /// Whether this domain owns the run of the range's first word, and the range lies in that run.
    fn has_in_a_run(&self, domain: u32, first: u32, count: u32) -> bool
        requires some { 0 < count }
        requires in_ram { first + count ≤ length self.now }
        ensures { IsTrue result
            ↔ ((w : ℕ) → first ≤ w → w < first + count → slice_index self.now w ≡ domain) }
    {
        let run = self.runs[run_place(&self.runs, first)];
        run.owner == domain && first + count <= run.end
    }

    /// Gives a domain the words of a range that isn't empty and lies in RAM. `OwnersFull`, with nothing changed,
    /// exactly
    /// where all words would then form more than 4096 maximal runs of one owner.
    pub fn give(&mut self, domain: u32, first: u32, count: u32) -> Result<(), OwnersFull>
        requires some { 0 < count }
        requires in_ram { first + count ≤ length self.old }
        ensures ok { OnOk result (self.new
            ≡ laid (record { first = first; count = count; value = domain }) self.old) }
        ensures full { IsErr result
            ↔ (most_owner_runs < owner_runs (laid
            (record { first = first; count = count; value = domain }) self.old)) }
        ensures unchanged { OnErr result (self.new ≡ self.old) }
        ensures total { length self.new ≡ length self.old }
    {
        put_given(&mut self.next, &self.runs, domain, first, first + count);
        if self.next.len() > MOST_OWNER_RUNS {
            return Err(OwnersFull);
        }
        mem::swap(&mut self.runs, &mut self.next);
        Ok(())
    }

    /// The owner of a word of RAM.
    pub fn owner(&self, word: u32) -> u32
        requires { word < length self.now }
        ensures { result ≡ slice_index self.now word }
    {
        self.runs[run_place(&self.runs, word)].owner
    }

    /// The first word after the run of words, round a word of RAM, that have its owner.
    pub fn run_end(&self, word: u32) -> u32
        requires { word < length self.now }
        ensures behind { word < result }
        ensures within { result ≤ length self.now }
        ensures same { (w : ℕ) → word ≤ w → w < result →
            slice_index self.now w ≡ slice_index self.now word }
        ensures ends { result < length self.now →
            slice_index self.now result ≢ slice_index self.now word }
    {
        self.runs[run_place(&self.runs, word)].end
    }
}
