//! A change of the maps of all domains.
ghost use Rattle.std.specs.Prelude.{◌≡◌, ℕ, ◌+◌, ◌-◌, ◌*◌, ◌<◌, ◌≤◌, length};
ghost use Rattle.mx_words.specs.Changes.{changed_map};
ghost use Rattle.mx_words.specs.Counting.{sum_below};
ghost use Rattle.mx_words.specs.Need.{segment_frames};
ghost use Rattle.mx_words.specs.Limits.{most_domains};
ghost use Rattle.mx_pool.specs.Frames.{free_in};
ghost use Rattle.mx_table.specs.Change.{given};
ghost use Rattle.mx_table.specs.Tables.{most_words, most_modules};
ghost use Rattle.mx_segments.specs.Lists.{longest_list, HasRoom};
ghost use Rattle.mx_segments.specs.Store.{IsStore, KeepsOthers};
ghost use Rattle.mx_segments.specs.Sound.{map_in, IsSound};

use crate::Chains;
use crate::change::change_row;
use crate::plan::frames_after;
use mx_pool::Pool;
use mx_table::Change;
use mx_words::Perm;

// What a change gives a domain.
fn given_to(change: &Change, domain: u32) -> Option<Perm>
    requires { domain < most_domains }
    ensures { result ≡ given change.now domain }
{
    change.perms[domain as usize]
}

// Makes a change of the map at a row.
fn change_one(leaf: &mut Pool<64>, chains: &mut Chains, row: u32, words: u32, change: &Change)
    requires store { IsStore leaf.old chains.old.lists }
    requires row { row < length chains.old.lists }
    requires few { length chains.old.lists ≤ most_modules }
    requires small { words ≤ most_words }
    requires sound { IsSound words leaf.old chains.old.lists row }
    requires some { 0 < change.now.count }
    requires inside { change.now.first + change.now.count ≤ words }
    requires spare { 0 < free_in leaf.old }
    requires memory { HasRoom (length leaf.old) words chains.old.room }
    ensures store { IsStore leaf.new chains.new.lists }
    ensures others { KeepsOthers leaf.old chains.old.lists leaf.new chains.new.lists row }
    ensures sound { IsSound words leaf.new chains.new.lists row }
    ensures changed { map_in words leaf.new chains.new.lists row
        ≡ changed_map change.now.first change.now.count (given change.now (row + 1))
        (map_in words leaf.old chains.old.lists row) }
    ensures free { free_in leaf.old ≤ free_in leaf.new + 1 }
    ensures same_room { chains.new.room ≡ chains.old.room }
{
    if let Some(perm) = given_to(change, row + 1) {
        change_row(leaf, chains, row, words, change.first, change.count, perm);
    }
}

/// Makes a change of the maps at all rows. Each list gets at most one frame more.
pub(crate) fn change_all(leaf: &mut Pool<64>, chains: &mut Chains, words: u32, change: &Change)
    requires store { IsStore leaf.old chains.old.lists }
    requires few { length chains.old.lists ≤ most_modules }
    requires small { words ≤ most_words }
    requires sound { (q : ℕ) → q < length chains.old.lists →
        IsSound words leaf.old chains.old.lists q }
    requires some { 0 < change.now.count }
    requires inside { change.now.first + change.now.count ≤ words }
    requires spare { length chains.old.lists ≤ free_in leaf.old }
    requires memory { HasRoom (length leaf.old) words chains.old.room }
    ensures store { IsStore leaf.new chains.new.lists }
    ensures rows { length chains.new.lists ≡ length chains.old.lists }
    ensures total { length leaf.new ≡ length leaf.old }
    ensures same_room { chains.new.room ≡ chains.old.room }
    ensures sound { (q : ℕ) → q < length chains.new.lists →
        IsSound words leaf.new chains.new.lists q }
    ensures changed { (q : ℕ) → q < length chains.old.lists →
        map_in words leaf.new chains.new.lists q
        ≡ changed_map change.now.first change.now.count (given change.now (q + 1))
        (map_in words leaf.old chains.old.lists q) }
{
    let rows = chains.count();
    for row in 0..rows {
        change_one(leaf, chains, row, words, change);
    }
}

// How many frames the map at a row needs after a change.
fn row_need(leaf: &Pool<64>, chains: &Chains, row: u32, words: u32, change: &Change) -> u32
    requires store { IsStore leaf.now chains.now.lists }
    requires row { row < length chains.now.lists }
    requires few { length chains.now.lists ≤ most_modules }
    requires small { words ≤ most_words }
    requires sound { IsSound words leaf.now chains.now.lists row }
    requires some { 0 < change.now.count }
    requires inside { change.now.first + change.now.count ≤ words }
    ensures need { result
        ≡ segment_frames (changed_map change.now.first change.now.count (given change.now (row + 1))
        (map_in words leaf.now chains.now.lists row)) }
    ensures most { result ≤ longest_list }
{
    match given_to(change, row + 1) {
        Some(perm) => frames_after(leaf, chains, row, words, change.first, change.count, perm),
        None => chains.len_at(row),
    }
}

/// How many frames all maps need after a change.
pub(crate) fn need_after(leaf: &Pool<64>, chains: &Chains, words: u32, change: &Change) -> u32
    requires store { IsStore leaf.now chains.now.lists }
    requires few { length chains.now.lists ≤ most_modules }
    requires small { words ≤ most_words }
    requires sound { (q : ℕ) → q < length chains.now.lists →
        IsSound words leaf.now chains.now.lists q }
    requires some { 0 < change.now.count }
    requires inside { change.now.first + change.now.count ≤ words }
    ensures { result ≡ sum_below (length chains.now.lists) (λ q. segment_frames
        (changed_map change.now.first change.now.count (given change.now (q + 1))
        (map_in words leaf.now chains.now.lists q))) }
{
    let mut needed = 0;
    for row in 0..chains.count() {
        needed += row_need(leaf, chains, row, words, change);
    }
    needed
}
