//! Maximal runs of words with one owner, in the order of their addresses.

ghost use Rattle.std.specs.Prelude.{◌≡◌, ℕ, ◌+◌, ◌-◌, ◌^◌, ◌<◌, ◌≤◌, ◌++◌, length, drop, [], vec_len, nat_le};
ghost use Rattle.std.specs.Prelude.{if◌then◌else◌, IfOk};
ghost use Rattle.std.specs.Vec.{vec_capacity};
ghost use Rattle.mx_words.specs.Runs.{most_owner_runs};
ghost use Rattle.mx_owners.specs.OwnerRuns.{run_at, place_of, runs_before, goes_on, end_behind, place_behind, given};

use mx_words::{MOST_OWNER_RUNS, NoMemory};
use std::alloc::Global;

// Words with one owner: those from the end of the run before, or from word 0 on, to before `end`.
#[derive(Clone, Copy, PartialEq, Eq)]
pub struct Run {
    pub end: u32,
    pub owner: u32,
}

// Room for as many runs as a give may make before they are counted.
pub fn room(alloc: Global) -> Result<Vec<Run>, NoMemory>
    ensures items { IfOk result (λ v. v.items ≡ []) }
    ensures capacity { IfOk result (λ v. most_owner_runs + 2 ≤ vec_capacity v) }
{
    Ok(Vec::with_capacity(alloc, MOST_OWNER_RUNS + 2)?)
}

// The place of a word's run, by halves of the runs that there are.
pub fn run_place(runs: &[Run], word: u32) -> usize
    requires few { length runs.now ≤ most_owner_runs }
    requires rising { (i j : ℕ) → i ≤ j → j < length runs.now →
        (run_at runs.now i).end ≤ (run_at runs.now j).end }
    ensures place { result ≡ place_of runs.now word }
    ensures within { result ≤ length runs.now }
{
    let mut low = 0;
    let mut width = runs.len();
    while width > 0 {
        let half = width - width / 2;
        low += step(runs[low + half - 1].end, word, half);
        width /= 2;
    }
    low
}

// The width where a run that ends at `end` ends at the word or before, else 0. Said by what a subtraction borrows,
// since the
// processor would guess at a choice.
fn step(end: u32, word: u32, width: usize) -> usize
    requires { width < 2 ^ 32 }
    ensures { result ≡ (if nat_le end word then width else 0) }
{
    let mask = (end as u64).wrapping_sub(word as u64 + 1) >> 32;
    width & mask as usize
}

// Adds these runs to the others.
fn add_runs(next: &mut Vec<Run>, runs: &[Run])
    requires { vec_len next.old + length runs.now ≤ vec_capacity next.old }
    ensures items { next.new.items ≡ next.old.items ++ runs.now }
    ensures capacity { vec_capacity next.old ≤ vec_capacity next.new }
{
    match next.extend_from_slice(runs) {
        Ok(()) => {}
        Err(_) => unreachable!(),
    }
}

// Makes `next` the runs before a give.
fn put_before(next: &mut Vec<Run>, runs: &[Run], owner: u32, first: u32)
    requires room { length runs.now + 2 ≤ vec_capacity next.old }
    requires few { length runs.now ≤ most_owner_runs }
    requires rising { (i j : ℕ) → i ≤ j → j < length runs.now →
        (run_at runs.now i).end ≤ (run_at runs.now j).end }
    requires within { 0 < first → place_of runs.now (first - 1) < length runs.now }
    ensures items { next.new.items ≡ runs_before runs.now owner first }
    ensures capacity { vec_capacity next.old ≤ vec_capacity next.new }
{
    next.clear();
    if first == 0 {
        return;
    }
    let i = run_place(runs, first - 1);
    add_runs(next, &runs[..i]);
    let last = runs[i];
    if last.owner != owner {
        next.push_reserved(Run {
            end: first,
            owner: last.owner,
        });
    }
}

// Makes `next` the runs after a give of the words from `first` to before `behind`.
pub fn put_given(next: &mut Vec<Run>, runs: &[Run], owner: u32, first: u32, behind: u32)
    requires room { length runs.now + 2 ≤ vec_capacity next.old }
    requires few { length runs.now ≤ most_owner_runs }
    requires rising { (i j : ℕ) → i ≤ j → j < length runs.now →
        (run_at runs.now i).end ≤ (run_at runs.now j).end }
    requires within { 0 < first → place_of runs.now (first - 1) < length runs.now }
    requires fits { length (given runs.now owner first behind) ≤ length runs.now + 2 }
    ensures items { next.new.items ≡ given runs.now owner first behind }
    ensures capacity { vec_capacity next.old ≤ vec_capacity next.new }
{
    put_before(next, runs, owner, first);
    let i = run_place(runs, behind);
    let goes_on = i < runs.len() && runs[i].owner == owner;
    if goes_on {
        next.push_reserved(Run {
            end: runs[i].end,
            owner,
        });
        add_runs(next, &runs[i + 1..]);
    } else {
        next.push_reserved(Run { end: behind, owner });
        add_runs(next, &runs[i..]);
    }
}
