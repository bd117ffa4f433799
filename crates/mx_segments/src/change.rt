//! A change of one map: a permission laid over a range of words.
ghost use Rattle.std.specs.Prelude.{◌≡◌, ℕ, ◌+◌, ◌-◌, ◌*◌, ◌/◌, ◌<◌, ◌≤◌, length};
ghost use Rattle.mx_words.specs.Newest.{laid};
ghost use Rattle.mx_words.specs.Changes.{grant_of};
ghost use Rattle.mx_pool.specs.Frames.{free_in};
ghost use Rattle.mx_table.specs.Tables.{most_words};
ghost use Rattle.mx_segments.specs.Lists.{HasRoom};
ghost use Rattle.mx_segments.specs.Store.{frames_in, word_in, IsStore, KeepsOthers, IsRewritten};
ghost use Rattle.mx_segments.specs.Sound.{map_in, IsSound};
ghost use Rattle.mx_segments.specs.Plan.{kept, total};

use crate::Chains;
use crate::entries::has_already;
use crate::moves::{clear, make_room, move_down, move_up, put_if, trim};
use crate::plan::{Plan, plan_of};
use mx_pool::Pool;
use mx_words::Perm;

// Moves the entries that only move to their new places, where these are others.
fn shift(leaf: &mut Pool<64>, chains: &Chains, row: u32, plan: &Plan)
    requires store { IsStore leaf.old chains.now.lists }
    requires row { row < length chains.now.lists }
    requires before { plan.now.before ≤ plan.now.behind }
    requires behind { plan.now.behind ≤ plan.now.all }
    requires all { plan.now.all ≤ most_words }
    requires most { total plan.now ≤ most_words }
    requires room { plan.now.all ≤ 64 * frames_in chains.now.lists row }
    requires enough { total plan.now ≤ 64 * frames_in chains.now.lists row }
    ensures rewritten { IsRewritten leaf.old leaf.new chains.now.lists row }
    ensures moved { (k : ℕ) → plan.now.behind ≤ k → k < plan.now.all →
        word_in leaf.new chains.now.lists row (k + kept plan.now - plan.now.behind)
        ≡ word_in leaf.old chains.now.lists row k }
    ensures same { (k : ℕ) → k < plan.now.before →
        word_in leaf.new chains.now.lists row k ≡ word_in leaf.old chains.now.lists row k }
    ensures rest { (k : ℕ) → plan.now.all ≤ k → total plan.now ≤ k →
        k < 64 * frames_in chains.now.lists row →
        word_in leaf.new chains.now.lists row k ≡ word_in leaf.old chains.now.lists row k }
{
    let kept = plan.kept_count();
    if plan.behind < kept {
        move_up(leaf, chains, row, plan.behind, plan.all, kept - plan.behind);
    } else if kept < plan.behind {
        move_down(leaf, chains, row, plan.behind, plan.all, plan.behind - kept);
    }
}

// Lays a permission over the words `first` to `first + count - 1` of the map at a row by its entries, and no other map
// changes. The list
// gets at most one frame more, and afterwards has just as many as the entries fill.
fn rewrite_row(
    leaf: &mut Pool<64>,
    chains: &mut Chains,
    row: u32,
    words: u32,
    first: u32,
    count: u32,
    perm: Perm,
)
    requires store { IsStore leaf.old chains.old.lists }
    requires row { row < length chains.old.lists }
    requires small { words ≤ most_words }
    requires sound { IsSound words leaf.old chains.old.lists row }
    requires some { 0 < count }
    requires inside { first + count ≤ words }
    requires spare { 0 < free_in leaf.old }
    requires memory { HasRoom (length leaf.old) words chains.old.room }
    ensures store { IsStore leaf.new chains.new.lists }
    ensures others { KeepsOthers leaf.old chains.old.lists leaf.new chains.new.lists row }
    ensures sound { IsSound words leaf.new chains.new.lists row }
    ensures changed { map_in words leaf.new chains.new.lists row
        ≡ laid (grant_of first count perm) (map_in words leaf.old chains.old.lists row) }
    ensures free { free_in leaf.old ≤ free_in leaf.new + 1 }
    ensures same_room { chains.new.room ≡ chains.old.room }
{
    let plan = plan_of(leaf, chains, row, words, first, count, perm);
    let total = plan.total();
    make_room(leaf, chains, row, total);
    shift(leaf, chains, row, &plan);
    put_if(leaf, chains, row, plan.starts, plan.before, first, perm);
    put_if(
        leaf,
        chains,
        row,
        plan.ends,
        plan.second(),
        first + count,
        plan.next,
    );
    clear(leaf, chains, row, total, plan.all);
    trim(leaf, chains, row, total.div_ceil(64));
}

/// Lays a permission over the words `first` to `first + count - 1` of the map at a row, and no other map changes. The
/// list gets at
/// most one frame more, and afterwards has just as many as the entries fill.
pub(crate) fn change_row(
    leaf: &mut Pool<64>,
    chains: &mut Chains,
    row: u32,
    words: u32,
    first: u32,
    count: u32,
    perm: Perm,
)
    requires store { IsStore leaf.old chains.old.lists }
    requires row { row < length chains.old.lists }
    requires small { words ≤ most_words }
    requires sound { IsSound words leaf.old chains.old.lists row }
    requires some { 0 < count }
    requires inside { first + count ≤ words }
    requires spare { 0 < free_in leaf.old }
    requires memory { HasRoom (length leaf.old) words chains.old.room }
    ensures store { IsStore leaf.new chains.new.lists }
    ensures others { KeepsOthers leaf.old chains.old.lists leaf.new chains.new.lists row }
    ensures sound { IsSound words leaf.new chains.new.lists row }
    ensures changed { map_in words leaf.new chains.new.lists row
        ≡ laid (grant_of first count perm) (map_in words leaf.old chains.old.lists row) }
    ensures free { free_in leaf.old ≤ free_in leaf.new + 1 }
    ensures same_room { chains.new.room ≡ chains.old.room }
{
    if !has_already(leaf, chains, row, words, first, count, perm) {
        rewrite_row(leaf, chains, row, words, first, count, perm);
    }
}
