//! Tables built from rows of spans.
ghost use Rattle.std.specs.Prelude.{◌≡◌, ℕ, ◌+◌, ◌*◌, ◌<◌, ◌≤◌, [], length, sum_by, All, slice_index_or};
ghost use Rattle.mx_words.specs.Need.{segment_frames};
ghost use Rattle.mx_words.specs.Newest.{map};
ghost use Rattle.mx_pool.specs.Frames.{free_in};
ghost use Rattle.mx_table.specs.Tables.{most_words, row_map, IsRow, most_modules};
ghost use Rattle.mx_table.specs.Rows.{first_spans};
ghost use Rattle.mx_segments.specs.Lists.{HasRoom};
ghost use Rattle.mx_segments.specs.Store.{frames_in, IsStore, KeepsOthers};
ghost use Rattle.mx_segments.specs.Sound.{map_in, IsSound};

use crate::Chains;
use crate::change::change_row;
use crate::store::{grow, put};
use mx_pool::Pool;
use mx_words::{RAM_BASE, Spans};

// Gives an empty list its first frame, with the one entry of a map without permissions.
fn start_row(leaf: &mut Pool<64>, chains: &mut Chains, row: u32, words: u32)
    requires store { IsStore leaf.old chains.old.lists }
    requires row { row < length chains.old.lists }
    requires some { 1 ≤ words }
    requires empty { frames_in chains.old.lists row ≡ 0 }
    requires spare { 0 < free_in leaf.old }
    requires memory { HasRoom (length leaf.old) words chains.old.room }
    ensures store { IsStore leaf.new chains.new.lists }
    ensures same_room { chains.new.room ≡ chains.old.room }
    ensures others { KeepsOthers leaf.old chains.old.lists leaf.new chains.new.lists row }
    ensures sound { IsSound words leaf.new chains.new.lists row }
    ensures map { map_in words leaf.new chains.new.lists row ≡ map [] words }
{
    grow(leaf, chains, row);
    put(leaf, chains, row, 0, RAM_BASE);
}

// Lays span `n` over the map of those before it.
fn lay_span(leaf: &mut Pool<64>, chains: &mut Chains, row: u32, words: u32, spans: &Spans, n: u32)
    requires store { IsStore leaf.old chains.old.lists }
    requires row { row < length chains.old.lists }
    requires small { words ≤ most_words }
    requires sound { IsSound words leaf.old chains.old.lists row }
    requires spans { IsRow words spans.now }
    requires place { n < length spans.now }
    requires map { map_in words leaf.old chains.old.lists row ≡ first_spans words spans.now n }
    requires spare { 0 < free_in leaf.old }
    requires memory { HasRoom (length leaf.old) words chains.old.room }
    ensures store { IsStore leaf.new chains.new.lists }
    ensures same_room { chains.new.room ≡ chains.old.room }
    ensures others { KeepsOthers leaf.old chains.old.lists leaf.new chains.new.lists row }
    ensures sound { IsSound words leaf.new chains.new.lists row }
    ensures map { map_in words leaf.new chains.new.lists row ≡ first_spans words spans.now (n + 1) }
{
    let span = spans.get(n);
    change_row(leaf, chains, row, words, span.first, span.count, span.perm);
}

// Fills the empty list at a row with the entries of a row of spans.
fn lay_row(leaf: &mut Pool<64>, chains: &mut Chains, row: u32, words: u32, spans: &Spans)
    requires store { IsStore leaf.old chains.old.lists }
    requires row { row < length chains.old.lists }
    requires some { 1 ≤ words }
    requires small { words ≤ most_words }
    requires spans { IsRow words spans.now }
    requires empty { frames_in chains.old.lists row ≡ 0 }
    requires spare { segment_frames (row_map words spans.now) + 2 ≤ free_in leaf.old }
    requires memory { HasRoom (length leaf.old) words chains.old.room }
    ensures store { IsStore leaf.new chains.new.lists }
    ensures same_room { chains.new.room ≡ chains.old.room }
    ensures others { KeepsOthers leaf.old chains.old.lists leaf.new chains.new.lists row }
    ensures sound { IsSound words leaf.new chains.new.lists row }
    ensures map { map_in words leaf.new chains.new.lists row ≡ row_map words spans.now }
    ensures free { free_in leaf.new + segment_frames (row_map words spans.now) ≡ free_in leaf.old }
{
    start_row(leaf, chains, row, words);
    for n in 0..spans.len() {
        lay_span(leaf, chains, row, words, spans, n);
    }
}

/// Fills the empty lists with the entries of the rows.
pub(crate) fn lay_rows(leaf: &mut Pool<64>, chains: &mut Chains, words: u32, rows: &[Spans])
    requires store { IsStore leaf.old chains.old.lists }
    requires rows { length chains.old.lists ≡ length rows.now }
    requires few { length rows.now ≤ most_modules }
    requires some { 1 ≤ words }
    requires small { words ≤ most_words }
    requires spans { All (IsRow words) rows.now }
    requires empty { (q : ℕ) → frames_in chains.old.lists q ≡ 0 }
    requires spare { sum_by (λ row. segment_frames (row_map words row)) rows.now + 2
        ≤ free_in leaf.old }
    requires memory { HasRoom (length leaf.old) words chains.old.room }
    ensures store { IsStore leaf.new chains.new.lists }
    ensures same_room { chains.new.room ≡ chains.old.room }
    ensures count { length chains.new.lists ≡ length chains.old.lists }
    ensures total { length leaf.new ≡ length leaf.old }
    ensures sound { (q : ℕ) → q < length chains.new.lists →
        IsSound words leaf.new chains.new.lists q }
    ensures maps { (q : ℕ) → q < length chains.new.lists →
        map_in words leaf.new chains.new.lists q ≡ row_map words (slice_index_or rows.now q []) }
    ensures free { free_in leaf.new + sum_by (λ row. segment_frames (row_map words row)) rows.now
        ≡ free_in leaf.old }
{
    for row in 0..rows.len() {
        lay_row(leaf, chains, row as u32, words, &rows[row]);
    }
}
