//! Words of a domain's list moved up and down, cleared, and frames that are no longer needed given back.
ghost use Rattle.std.specs.Prelude.{◌≡◌, ◌≢◌, ℕ, ◌+◌, ◌-◌, ◌*◌, ◌%◌, ◌<◌, ◌≤◌, length, true};
ghost use Rattle.mx_pool.specs.Frames.{free_in};
ghost use Rattle.mx_table.specs.Tables.{most_words};
ghost use Rattle.mx_segments.specs.Lists.{HasRoom};
ghost use Rattle.mx_segments.specs.Store.{frames_in, word_in, IsStore, KeepsOthers, IsRewritten, IsPieceCopied};
ghost use Rattle.mx_segments.specs.Entries.{entry_word};

use crate::Chains;
use crate::store::{grow, put, shrink};
use mx_pool::Pool;
use mx_words::{Perm, RAM_BASE};

/// The number of words in a frame.
const FRAME_WORDS: u32 = 64;

// Copies `count` words from place `from` on to place `to` on. Those that are read lie in one frame, and so do those
// that are written.
fn copy_piece(leaf: &mut Pool<64>, chains: &Chains, row: u32, from: u32, to: u32, count: u32)
    requires store { IsStore leaf.old chains.now.lists }
    requires row { row < length chains.now.lists }
    requires some { 0 < count }
    requires from { from + count ≤ 64 * frames_in chains.now.lists row }
    requires to { to + count ≤ 64 * frames_in chains.now.lists row }
    requires one_source { from % 64 + count ≤ 64 }
    requires one_target { to % 64 + count ≤ 64 }
    ensures rewritten { IsRewritten leaf.old leaf.new chains.now.lists row }
    ensures piece { IsPieceCopied
        (word_in leaf.old chains.now.lists row) (word_in leaf.new chains.now.lists row)
        from to count (64 * frames_in chains.now.lists row) }
{
    let source = chains.frame_at(row, from / FRAME_WORDS);
    let target = chains.frame_at(row, to / FRAME_WORDS);
    leaf.copy(source, from % FRAME_WORDS, target, to % FRAME_WORDS, count);
}

// The first of the last words before place `end`, from place `from` on, that lie in one frame and still do `by` places
// higher.
fn piece_begin(from: u32, end: u32, by: u32) -> u32
    requires some { from < end }
    requires most { end + by ≤ most_words }
    ensures least { from ≤ result }
    ensures less { result < end }
    ensures one_source { result % 64 + (end - result) ≤ 64 }
    ensures one_target { (result + by) % 64 + (end - result) ≤ 64 }
{
    let source = (end - 1) / FRAME_WORDS * FRAME_WORDS;
    let target = (end - 1 + by) / FRAME_WORDS * FRAME_WORDS;
    from.max(source).max(target.saturating_sub(by))
}

// The place after the first words from place `begin` on, before place `to`, that lie in one frame and still do `by`
// places lower.
fn piece_end(begin: u32, to: u32, by: u32) -> u32
    requires some { begin < to }
    requires far { by ≤ begin }
    requires most { to ≤ most_words }
    ensures more { begin < result }
    ensures most { result ≤ to }
    ensures one_source { begin % 64 + (result - begin) ≤ 64 }
    ensures one_target { (begin - by) % 64 + (result - begin) ≤ 64 }
{
    let source = begin / FRAME_WORDS * FRAME_WORDS + FRAME_WORDS;
    let target = (begin - by) / FRAME_WORDS * FRAME_WORDS + FRAME_WORDS + by;
    to.min(source).min(target)
}

/// Moves the words `from` to `to - 1` up by `by` places, frame by frame, the highest first.
pub(crate) fn move_up(leaf: &mut Pool<64>, chains: &Chains, row: u32, from: u32, to: u32, by: u32)
    requires store { IsStore leaf.old chains.now.lists }
    requires row { row < length chains.now.lists }
    requires range { from ≤ to }
    requires room { to + by ≤ 64 * frames_in chains.now.lists row }
    requires most { to + by ≤ most_words }
    ensures rewritten { IsRewritten leaf.old leaf.new chains.now.lists row }
    ensures moved { (j : ℕ) → from ≤ j → j < to →
        word_in leaf.new chains.now.lists row (j + by) ≡ word_in leaf.old chains.now.lists row j }
    ensures below { (j : ℕ) → j < from + by →
        word_in leaf.new chains.now.lists row j ≡ word_in leaf.old chains.now.lists row j }
    ensures behind { (j : ℕ) → to + by ≤ j → j < 64 * frames_in chains.now.lists row →
        word_in leaf.new chains.now.lists row j ≡ word_in leaf.old chains.now.lists row j }
{
    let mut end = to;
    while from < end {
        let begin = piece_begin(from, end, by);
        copy_piece(leaf, chains, row, begin, begin + by, end - begin);
        end = begin;
    }
}

/// Moves the words `from` to `to - 1` down by `by` places, frame by frame, the lowest first.
pub(crate) fn move_down(leaf: &mut Pool<64>, chains: &Chains, row: u32, from: u32, to: u32, by: u32)
    requires store { IsStore leaf.old chains.now.lists }
    requires row { row < length chains.now.lists }
    requires range { from ≤ to }
    requires far { by ≤ from }
    requires room { to ≤ 64 * frames_in chains.now.lists row }
    requires most { to ≤ most_words }
    ensures rewritten { IsRewritten leaf.old leaf.new chains.now.lists row }
    ensures moved { (j : ℕ) → from ≤ j → j < to →
        word_in leaf.new chains.now.lists row (j - by) ≡ word_in leaf.old chains.now.lists row j }
    ensures below { (j : ℕ) → j < from - by →
        word_in leaf.new chains.now.lists row j ≡ word_in leaf.old chains.now.lists row j }
    ensures behind { (j : ℕ) → to ≤ j → j < 64 * frames_in chains.now.lists row →
        word_in leaf.new chains.now.lists row j ≡ word_in leaf.old chains.now.lists row j }
{
    let mut begin = from;
    while begin < to {
        let end = piece_end(begin, to, by);
        copy_piece(leaf, chains, row, begin, begin - by, end - begin);
        begin = end;
    }
}

/// Makes the words `from` to `to - 1` 0.
pub(crate) fn clear(leaf: &mut Pool<64>, chains: &Chains, row: u32, from: u32, to: u32)
    requires store { IsStore leaf.old chains.now.lists }
    requires row { row < length chains.now.lists }
    requires room { to ≤ 64 * frames_in chains.now.lists row }
    ensures rewritten { IsRewritten leaf.old leaf.new chains.now.lists row }
    ensures zeros { (j : ℕ) → from ≤ j → j < to → word_in leaf.new chains.now.lists row j ≡ 0 }
    ensures below { (j : ℕ) → j < from → j < 64 * frames_in chains.now.lists row →
        word_in leaf.new chains.now.lists row j ≡ word_in leaf.old chains.now.lists row j }
    ensures behind { (j : ℕ) → to ≤ j → j < 64 * frames_in chains.now.lists row →
        word_in leaf.new chains.now.lists row j ≡ word_in leaf.old chains.now.lists row j }
{
    for i in from..to {
        put(leaf, chains, row, i, 0);
    }
}

/// Writes the entry of a run that begins at a word, where there is one, at place `at`.
pub(crate) fn put_if(
    leaf: &mut Pool<64>,
    chains: &Chains,
    row: u32,
    is_there: bool,
    at: u32,
    first: u32,
    perm: Perm,
)
    requires store { IsStore leaf.old chains.now.lists }
    requires row { row < length chains.now.lists }
    requires place { is_there ≡ true → at < 64 * frames_in chains.now.lists row }
    requires word { first ≤ most_words }
    ensures rewritten { IsRewritten leaf.old leaf.new chains.now.lists row }
    ensures here { is_there ≡ true →
        word_in leaf.new chains.now.lists row at ≡ entry_word first perm }
    ensures elsewhere { (j : ℕ) → (is_there ≡ true → j ≢ at) →
        j < 64 * frames_in chains.now.lists row →
        word_in leaf.new chains.now.lists row j ≡ word_in leaf.old chains.now.lists row j }
{
    if is_there {
        put(leaf, chains, row, at, RAM_BASE + 4 * first + perm.number());
    }
}

/// Appends a frame where the list's frames don't hold `needed` words, which is at most one frame more than they hold.
pub(crate) fn make_room(leaf: &mut Pool<64>, chains: &mut Chains, row: u32, needed: u32)
    requires store { IsStore leaf.old chains.old.lists }
    requires row { row < length chains.old.lists }
    requires spare { 0 < free_in leaf.old }
    requires most { needed ≤ most_words }
    requires near { needed ≤ 64 * frames_in chains.old.lists row + 64 }
    requires memory { HasRoom (length leaf.old) needed chains.old.room }
    ensures store { IsStore leaf.new chains.new.lists }
    ensures others { KeepsOthers leaf.old chains.old.lists leaf.new chains.new.lists row }
    ensures enough { needed ≤ 64 * frames_in chains.new.lists row }
    ensures more { frames_in chains.old.lists row ≤ frames_in chains.new.lists row }
    ensures words { (j : ℕ) → j < 64 * frames_in chains.old.lists row →
        word_in leaf.new chains.new.lists row j ≡ word_in leaf.old chains.old.lists row j }
    ensures zeros { (j : ℕ) → 64 * frames_in chains.old.lists row ≤ j →
        j < 64 * frames_in chains.new.lists row → word_in leaf.new chains.new.lists row j ≡ 0 }
    ensures free { free_in leaf.old ≤ free_in leaf.new + 1 }
    ensures same_room { chains.new.room ≡ chains.old.room }
{
    if 64 * chains.len_at(row) < needed {
        grow(leaf, chains, row);
    }
}

/// Gives the last frames of the list at a row back, until `frames` are left.
pub(crate) fn trim(leaf: &mut Pool<64>, chains: &mut Chains, row: u32, frames: u32)
    requires store { IsStore leaf.old chains.old.lists }
    requires row { row < length chains.old.lists }
    requires fewer { frames ≤ frames_in chains.old.lists row }
    ensures store { IsStore leaf.new chains.new.lists }
    ensures others { KeepsOthers leaf.old chains.old.lists leaf.new chains.new.lists row }
    ensures frames { frames_in chains.new.lists row ≡ frames }
    ensures words { (j : ℕ) → j < 64 * frames →
        word_in leaf.new chains.new.lists row j ≡ word_in leaf.old chains.old.lists row j }
    ensures free { free_in leaf.old ≤ free_in leaf.new }
    ensures same_room { chains.new.room ≡ chains.old.room }
{
    while frames < chains.len_at(row) {
        shrink(leaf, chains, row);
    }
}
