//! What one leaf entry tells: the run of a word, the permissions of a line, and its reaches.
ghost use Rattle.std.specs.Prelude.{◌≡◌, ℕ, ◌+◌, ◌*◌, ◌/◌, ◌<◌, ◌≤◌, ◌^◌, List, length, None, min, max};
ghost use Rattle.mx_words.specs.declared.perm.Perm.{Perm};
ghost use Rattle.mx_words.specs.Ranges.{most_words};
ghost use Rattle.mx_words.specs.Reach.{line_at};
ghost use Rattle.mx_trie.specs.Leaf.{spill_number};
ghost use Rattle.mx_trie.specs.Walk.{Frames, most_lines, map_left, map_right};
ghost use Rattle.mx_trie.specs.Shown.{IsLine, IsSomeLine};
ghost use Rattle.mx_trie.specs.Views.{IsRound};

use crate::LeafForm;
use crate::sizes::LINE_WORDS;
use mx_pool::Pool;
use mx_words::{Perm, Span};

/// The run of a word of a line inside the line, by the line's entry.
pub(crate) fn around_line<L: LeafForm>(spill: &Pool<1>, entry: u32, line: u32, word: u32) -> Span
    requires line { line < most_lines }
    requires from { line * 16 ≤ word }
    requires to { word < line * 16 + 16 }
    requires stands { IsSomeLine L.kind spill.now line entry }
    ensures { (m : List Perm) → length m ≤ most_words → IsLine L.kind spill.now m line entry →
        IsRound m word result }
{
    let spilled = L::spill_of(entry).map_or(0, |number| spill.get(number, 0));
    in_line(L::run(entry, spilled, line * LINE_WORDS, word), line, word)
}

/// A span round a word of a line, cut to the line.
fn in_line(run: Span, line: u32, word: u32) -> Span
    requires line { line < most_lines }
    requires from { run.first ≤ word }
    requires to { word < run.first + run.count }
    requires whole { run.first + run.count ≤ most_words }
    requires begin { line * 16 ≤ word }
    requires end { word < line * 16 + 16 }
    ensures first { result.first ≡ max run.first (line * 16) }
    ensures end { result.first + result.count ≡ min (run.first + run.count) (line * 16 + 16) }
    ensures perm { result.perm ≡ run.perm }
{
    let begin = line * LINE_WORDS;
    let first = run.first.max(begin);
    let end = (run.first + run.count).min(begin + LINE_WORDS);
    Span {
        first,
        count: end - first,
        perm: run.perm,
    }
}

/// The permissions of a line, by its entry.
pub(crate) fn perms_in<L: LeafForm>(spill: &Pool<1>, entry: u32, line: u32) -> [Perm; 16]
    requires line { line < most_lines }
    requires stands { IsSomeLine L.kind spill.now line entry }
    ensures { (m : List Perm) → length m ≤ most_words → IsLine L.kind spill.now m line entry →
        result ≡ line_at m (line * 16) }
{
    let mut perms = [Perm::None; 16];
    let mut span = around_line::<L>(spill, entry, line, line * LINE_WORDS);
    for place in 0..16u32 {
        let word = line * LINE_WORDS + place;
        if span.first + span.count <= word {
            span = around_line::<L>(spill, entry, line, word);
        }
        perms[place as usize] = span.perm;
    }
    perms
}

/// The left reach of an entry without spill word.
pub(crate) fn left_in<L: LeafForm>(entry: u32, line: u32) -> u32
    requires line { line < most_lines }
    requires stands { (spill : Frames) × IsSomeLine L.kind spill line entry }
    requires none { spill_number L.kind entry ≡ None }
    ensures few { result ≤ 31 }
    ensures value { (m : List Perm) (spill : Frames) → length m ≤ most_words → IsLine L.kind spill m line entry →
        result ≡ map_left L.kind m line }
{
    let begin = line * LINE_WORDS;
    begin - L::run(entry, 0, begin, begin).first
}

/// The right reach of an entry without spill word.
pub(crate) fn right_in<L: LeafForm>(entry: u32, line: u32) -> u32
    requires line { line < most_lines }
    requires stands { (spill : Frames) × IsSomeLine L.kind spill line entry }
    requires none { spill_number L.kind entry ≡ None }
    ensures few { result ≤ 31 }
    ensures value { (m : List Perm) (spill : Frames) → length m ≤ most_words → IsLine L.kind spill m line entry →
        result ≡ map_right L.kind m line }
{
    let begin = line * LINE_WORDS;
    let run = L::run(entry, 0, begin, begin + LINE_WORDS - 1);
    run.first + run.count - (begin + LINE_WORDS)
}
