//! What a change of a range does to the runs of one map.
ghost use Rattle.std.specs.Prelude.{◌≡◌, ℕ, ◌+◌, ◌-◌, ◌*◌, ◌/◌, ◌<◌, ◌≤◌, ◌^◌, not, ◌==◌, ◌&&◌, ◌||◌, nat_lt, length};
ghost use Rattle.mx_words.specs.Rights.{same, perm_at};
ghost use Rattle.mx_words.specs.Counting.{bit};
ghost use Rattle.mx_words.specs.Runs.{runs};
ghost use Rattle.mx_words.specs.Newest.{laid};
ghost use Rattle.mx_words.specs.Changes.{grant_of};
ghost use Rattle.mx_table.specs.Tables.{most_words};
ghost use Rattle.mx_segments.specs.Lists.{longest_list};
ghost use Rattle.mx_segments.specs.Store.{IsStore};
ghost use Rattle.mx_segments.specs.Sound.{map_in, IsSound};
ghost use Rattle.mx_segments.specs.Plan.{IsPlan, kept, total};

use crate::Chains;
use crate::entries::{has_already, perm_in, runs_before};
use mx_pool::Pool;
use mx_words::Perm;

/// The runs round a range whose permission changes.
#[derive(Clone, Copy)]
pub(crate) struct Plan {
    /// How many runs begin before the range.
    pub before: u32,
    /// How many begin before its end or right there.
    pub behind: u32,
    /// How many there are.
    pub all: u32,
    /// Whether a run begins at the range afterwards.
    pub starts: bool,
    /// Whether a run begins right after the range afterwards.
    pub ends: bool,
    /// The permission of the word after the range.
    pub next: Perm,
}

impl Plan {
    // How many runs stand before those that only move.
    pub(crate) fn kept_count(&self) -> u32
        requires { self.now.before + 2 < 2 ^ 32 }
        ensures { result ≡ kept self.now }
    {
        self.before + u32::from(self.starts) + u32::from(self.ends)
    }

    // The number of the run that begins right after the range afterwards, if one does.
    pub(crate) fn second(&self) -> u32
        requires { self.now.before + 1 < 2 ^ 32 }
        ensures { result ≡ self.now.before + bit self.now.starts }
    {
        self.before + u32::from(self.starts)
    }

    // How many runs there are afterwards.
    pub(crate) fn total(&self) -> u32
        requires before { self.now.before ≤ self.now.behind }
        requires behind { self.now.behind ≤ self.now.all }
        requires all { self.now.all ≤ most_words }
        ensures { result ≡ total self.now }
    {
        self.all + self.kept_count() - self.behind
    }
}

// Whether a run begins at a word that gets a permission, after a word that keeps its own.
fn starts_at(leaf: &Pool<64>, chains: &Chains, row: u32, words: u32, first: u32, perm: Perm) -> bool
    requires store { IsStore leaf.now chains.now.lists }
    requires row { row < length chains.now.lists }
    requires small { words ≤ most_words }
    requires sound { IsSound words leaf.now chains.now.lists row }
    requires word { first < words }
    ensures { result ≡ ((first == 0)
        || not (same (perm_at (map_in words leaf.now chains.now.lists row) (first - 1)) perm)) }
{
    if first == 0 {
        return true;
    }
    perm_in(leaf, chains, row, words, first - 1) != perm
}

// The permission of a word in the map at a row, none outside RAM.
fn perm_or_none(leaf: &Pool<64>, chains: &Chains, row: u32, words: u32, at: u32) -> Perm
    requires store { IsStore leaf.now chains.now.lists }
    requires row { row < length chains.now.lists }
    requires small { words ≤ most_words }
    requires sound { IsSound words leaf.now chains.now.lists row }
    ensures { result ≡ perm_at (map_in words leaf.now chains.now.lists row) at }
{
    if at < words {
        perm_in(leaf, chains, row, words, at)
    } else {
        Perm::None
    }
}

/// The plan of a change of the map at a row: the words `first` to `first + count - 1` get a permission.
pub(crate) fn plan_of(
    leaf: &Pool<64>,
    chains: &Chains,
    row: u32,
    words: u32,
    first: u32,
    count: u32,
    perm: Perm,
) -> Plan
    requires store { IsStore leaf.now chains.now.lists }
    requires row { row < length chains.now.lists }
    requires small { words ≤ most_words }
    requires sound { IsSound words leaf.now chains.now.lists row }
    requires some { 0 < count }
    requires inside { first + count ≤ words }
    ensures plan { IsPlan (map_in words leaf.now chains.now.lists row) first count perm result }
    ensures before { result.before ≤ result.behind }
    ensures behind { result.behind ≤ result.all }
    ensures all { result.all ≤ words }
    ensures most { total result ≤ words }
{
    let behind = first + count;
    let next = perm_or_none(leaf, chains, row, words, behind);
    Plan {
        before: runs_before(leaf, chains, row, words, first),
        behind: runs_before(leaf, chains, row, words, behind + 1),
        all: runs_before(leaf, chains, row, words, words),
        starts: starts_at(leaf, chains, row, words, first, perm),
        ends: behind < words && perm != next,
        next,
    }
}

/// How many frames the map at a row needs after a change.
pub(crate) fn frames_after(
    leaf: &Pool<64>,
    chains: &Chains,
    row: u32,
    words: u32,
    first: u32,
    count: u32,
    perm: Perm,
) -> u32
    requires store { IsStore leaf.now chains.now.lists }
    requires row { row < length chains.now.lists }
    requires small { words ≤ most_words }
    requires sound { IsSound words leaf.now chains.now.lists row }
    requires some { 0 < count }
    requires inside { first + count ≤ words }
    ensures frames { result ≡ (runs
        (laid (grant_of first count perm) (map_in words leaf.now chains.now.lists row)) + 63) / 64 }
    ensures most { result ≤ longest_list }
{
    if has_already(leaf, chains, row, words, first, count, perm) {
        return chains.len_at(row);
    }
    let plan = plan_of(leaf, chains, row, words, first, count, perm);
    plan.total().div_ceil(64)
}
