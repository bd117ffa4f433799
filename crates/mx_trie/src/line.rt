//! One line of a change: its entry before and after, with the spill word that is taken for it or given back.
ghost use Rattle.std.specs.Prelude.{◌≡◌, ◌≢◌, ℕ, ◌+◌, ◌-◌, ◌*◌, ◌/◌, ◌%◌, ◌<◌, ◌≤◌, ◌^◌, List, length, true, false};
ghost use Rattle.std.specs.Prelude.{None, Some, IfSome, is_some, max};
ghost use Rattle.mx_words.specs.declared.perm.Perm.{Perm};
ghost use Rattle.mx_words.specs.declared.tables.Kind.{Kind};
ghost use Rattle.mx_words.specs.Counting.{bit};
ghost use Rattle.mx_words.specs.Rights.{perm_at};
ghost use Rattle.mx_words.specs.Runs.{line_words};
ghost use Rattle.mx_pool.specs.Frames.{frame_at, IsTaken, word_at, free_in};
ghost use Rattle.mx_trie.specs.Leaf.{spill_number, form_reach};
ghost use Rattle.mx_trie.specs.Walk.{most_lines, map_left, map_right};
ghost use Rattle.mx_trie.specs.Shown.{IsSomeLine};
ghost use Rattle.mx_trie.specs.Ranges.{IsInside, IsApart};
ghost use Rattle.mx_trie.specs.Laying.{cuts, IsBeside, IsLaidOver, laid_by};
ghost use Rattle.mx_trie.specs.Spills.{IsSpillPut};
ghost use Rattle.mx_trie.specs.Changed.{IsLineChanged};

use crate::entry::{left_in, perms_in, right_in};
use crate::laying::{Beside, Laying};
use crate::sizes::LINE_WORDS;
use crate::{LeafForm, Vector};
use mx_pool::Pool;
use mx_words::Perm;

/// Puts a spill word where a line needs one, in the frame that it had or in a new one, and gives its frame back
/// where it needs none. Answers the number of its spill word, or 0.
pub(crate) fn put_spill(spill: &mut Pool<1>, old: Option<u32>, needs: bool, word: u32) -> u32
    requires taken { IfSome old (λ n. IsTaken spill.old n) }
    requires few { IfSome old (λ n. n < 2 ^ 30) }
    requires room { needs ≡ true → old ≡ None → 0 < free_in spill.old }
    ensures { IsSpillPut spill.old spill.new old needs word result }
{
    match old {
        Some(number) => {
            if needs {
                spill.set(number, 0, word);
                number
            } else {
                spill.give(number);
                0
            }
        }
        None => {
            if needs {
                let number = match spill.take() {
                    Some(number) => number,
                    None => unreachable!(),
                };
                spill.set(number, 0, word);
                number
            } else {
                0
            }
        }
    }
}

/// A line's permissions with one of them on the places `from` to `to - 1`.
fn lay_over(old: &[Perm; 16], from: u32, to: u32, perm: Perm) -> [Perm; 16]
    requires from { from ≤ to }
    requires to { to ≤ 16 }
    ensures { IsLaidOver old.now result from to perm }
{
    let mut new = *old;
    for place in from..to {
        new[place as usize] = perm;
    }
    new
}

/// The left reach, at most `most`, that a line behind the range has after a change. It has the left reach `old`
/// by the old map, and `perm` is the permission of its first word.
fn left_behind(lay: &Laying, beside: &Beside, most: u32, line: u32, old: u32, perm: Perm) -> u32
    requires line { line < most_lines }
    requires behind { lay.now.end ≤ line * 16 }
    ensures few { result ≤ max old most }
    ensures value { (kind : Kind) (m : List Perm) → IsBeside kind m lay.now beside.now →
        most ≡ form_reach kind → old ≡ map_left kind m line → perm ≡ perm_at m (line * 16) →
        result ≡ map_left kind (laid_by lay.now m) line }
{
    let begin = line * LINE_WORDS;
    let gap = begin - lay.end;
    if begin >= lay.words || old < gap {
        return old;
    }
    if perm != lay.perm {
        return gap;
    }
    (begin - lay.first + beside.before).min(most)
}

/// The right reach, at most `most`, that a line before the range has after a change. It has the right reach
/// `old` by the old map, and `perm` is the permission of its last word.
fn right_before(lay: &Laying, beside: &Beside, most: u32, line: u32, old: u32, perm: Perm) -> u32
    requires before { line * 16 + 16 ≤ lay.now.first }
    ensures few { result ≤ max old most }
    ensures value { (kind : Kind) (m : List Perm) → IsBeside kind m lay.now beside.now →
        most ≡ form_reach kind → old ≡ map_right kind m line → perm ≡ perm_at m (line * 16 + 15) →
        result ≡ map_right kind (laid_by lay.now m) line }
{
    let end = line * LINE_WORDS + LINE_WORDS;
    let gap = lay.first - end;
    if old < gap {
        return old;
    }
    if perm != lay.perm {
        return gap;
    }
    (lay.end - end + beside.behind).min(most)
}

/// The entry of a line of which all words lie in the range.
fn cover_line<L: LeafForm>(
    spill: &mut Pool<1>,
    line: u32,
    entry: u32,
    lay: &Laying,
    beside: &Beside,
) -> u32
    requires line { line < most_lines }
    requires from { lay.now.first ≤ line * 16 }
    requires to { line * 16 + 16 ≤ lay.now.end }
    requires taken { (g : ℕ) → spill_number L.kind entry ≡ Some g → IsTaken spill.old g }
    ensures { IsLineChanged L.kind spill.old spill.new lay.now beside.now line entry result }
{
    let begin = line * LINE_WORDS;
    let left = (begin - lay.first + beside.before).min(L::REACH);
    let right = (lay.end - (begin + LINE_WORDS) + beside.behind).min(L::REACH);
    put_spill(spill, L::spill_of(entry), false, 0);
    L::flat(lay.perm, left, right)
}

/// The entry of a line of which some words lie in the range and some don't.
fn cut_line<L: LeafForm>(
    spill: &mut Pool<1>,
    line: u32,
    entry: u32,
    lay: &Laying,
    beside: &Beside,
) -> u32
    requires line { line < most_lines }
    requires stands { IsSomeLine L.kind spill.old line entry }
    requires before { lay.now.first < line * 16 + 16 }
    requires behind { line * 16 < lay.now.end }
    requires part { IsInside lay.now.first lay.now.end (line * 16) (line * 16 + 16) }
    requires room { 0 < free_in spill.old }
    ensures { IsLineChanged L.kind spill.old spill.new lay.now beside.now line entry result }
{
    let begin = line * LINE_WORDS;
    let end = begin + LINE_WORDS;
    let old = perms_in::<L>(spill, entry, line);
    let new = lay_over(
        &old,
        lay.first.max(begin) - begin,
        lay.end.min(end) - begin,
        lay.perm,
    );
    let left = if begin < lay.first {
        beside.left
    } else {
        begin - lay.first + beside.before
    };
    let right = if lay.end < end {
        beside.right
    } else {
        lay.end - end + beside.behind
    };
    let word = Vector::entry(&new, 0, 0, 0);
    let number = put_spill(spill, L::spill_of(entry), L::needs_spill(&new), word);
    L::entry(&new, left.min(L::REACH), right.min(L::REACH), number)
}

/// The entry of a line beside the range, which has no spill word.
fn reach_line<L: LeafForm>(
    spill: &Pool<1>,
    line: u32,
    entry: u32,
    lay: &Laying,
    beside: &Beside,
) -> u32
    requires line { line < most_lines }
    requires stands { IsSomeLine L.kind spill.now line entry }
    requires none { spill_number L.kind entry ≡ None }
    requires apart { IsApart lay.now.first lay.now.end (line * 16) (line * 16 + 16) }
    ensures { IsLineChanged L.kind spill.now spill.now lay.now beside.now line entry result }
{
    let perms = perms_in::<L>(spill, entry, line);
    let left = left_in::<L>(entry, line);
    let right = right_in::<L>(entry, line);
    if line * LINE_WORDS < lay.first {
        let right = right_before(lay, beside, L::REACH, line, right, perms[15]);
        L::entry(&perms, left.min(L::REACH), right.min(L::REACH), 0)
    } else {
        let left = left_behind(lay, beside, L::REACH, line, left, perms[0]);
        L::entry(&perms, left.min(L::REACH), right.min(L::REACH), 0)
    }
}

/// The entry of a line after a change.
pub(crate) fn change_line<L: LeafForm>(
    spill: &mut Pool<1>,
    line: u32,
    entry: u32,
    lay: &Laying,
    beside: &Beside,
) -> u32
    requires line { line < most_lines }
    requires stands { IsSomeLine L.kind spill.old line entry }
    requires room { cuts line_words line lay.now ≤ free_in spill.old }
    ensures { IsLineChanged L.kind spill.old spill.new lay.now beside.now line entry result }
{
    let begin = line * LINE_WORDS;
    if lay.covers(begin, begin + LINE_WORDS) {
        return cover_line::<L>(spill, line, entry, lay, beside);
    }
    if lay.meets(begin, begin + LINE_WORDS) {
        return cut_line::<L>(spill, line, entry, lay, beside);
    }
    if L::spill_of(entry).is_some() {
        return entry;
    }
    reach_line::<L>(spill, line, entry, lay, beside)
}
