//! What is known of a map beside a range, and the reaches of its lines.
ghost use Rattle.std.specs.Prelude.{◌≡◌, ℕ, ◌+◌, ◌-◌, ◌*◌, ◌/◌, ◌<◌, ◌≤◌, true, length};
ghost use Rattle.mx_words.specs.Ranges.{most_words};
ghost use Rattle.mx_trie.specs.Walk.{most_pages, most_lines, map_left, map_right};
ghost use Rattle.mx_trie.specs.Laying.{back, ahead, IsBeside};

use crate::LeafForm;
use crate::laying::{Beside, Laying, Outer};
use crate::sizes::{LINE_WORDS, PAGE_LINES, PAGE_WORDS};
use crate::view::View;
use mx_words::Perm;

/// How many words right before a word have a permission, at most `most`.
fn before<V: View>(view: &V, at: u32, perm: Perm, most: u32) -> u32
    requires lawful { V.lawful view.now }
    requires at { at ≤ most_words }
    requires inside { at ≤ length (V.map view.now) }
    ensures { result ≡ back most perm (V.map view.now) at }
{
    let mut begin = at;
    while 0 < begin && at - begin < most {
        let span = view.around(begin - 1);
        if span.perm != perm {
            return at - begin;
        }
        begin = span.first;
    }
    (at - begin).min(most)
}

/// How many words of a RAM of `words` words, from a word on, have a permission, at most `most`.
fn behind<V: View>(view: &V, words: u32, at: u32, perm: Perm, most: u32) -> u32
    requires lawful { V.lawful view.now }
    requires words { words ≡ length (V.map view.now) }
    requires few { words ≤ most_words }
    ensures { result ≡ ahead most perm (V.map view.now) at }
{
    let mut end = at;
    while end < words && end - at < most {
        let span = view.around(end);
        if span.perm != perm {
            return end - at;
        }
        end = span.first + span.count;
    }
    end.min(words).saturating_sub(at).min(most)
}

/// The left reach of a line's entry by a map of `words` words of RAM. A line outside RAM has none.
pub(crate) fn line_left<L: LeafForm, V: View>(view: &V, words: u32, line: u32) -> u32
    requires lawful { V.lawful view.now }
    requires words { words ≡ length (V.map view.now) }
    requires few { words ≤ most_words }
    requires line { line < most_lines }
    ensures { result ≡ map_left L.kind (V.map view.now) line }
{
    let first = line * LINE_WORDS;
    if first < words {
        before(view, first, view.around(first).perm, L::REACH)
    } else {
        0
    }
}

/// The right reach of a line's entry.
pub(crate) fn line_right<L: LeafForm, V: View>(view: &V, words: u32, line: u32) -> u32
    requires lawful { V.lawful view.now }
    requires words { words ≡ length (V.map view.now) }
    requires few { words ≤ most_words }
    requires line { line < most_lines }
    ensures { result ≡ map_right L.kind (V.map view.now) line }
{
    let first = line * LINE_WORDS;
    let end = first + LINE_WORDS;
    if first < words {
        behind(view, words, end, view.around(end - 1).perm, L::REACH)
    } else {
        0
    }
}

/// The outer reaches of a page.
fn outer_of<L: LeafForm, V: View>(view: &V, words: u32, page: u32) -> Outer
    requires lawful { V.lawful view.now }
    requires words { words ≡ length (V.map view.now) }
    requires few { words ≤ most_words }
    requires page { page < most_pages }
    ensures left { result.left ≡ map_left L.kind (V.map view.now) (page * 64) }
    ensures right { result.right ≡ map_right L.kind (V.map view.now) (page * 64 + 63) }
{
    Outer {
        left: line_left::<L, V>(view, words, page * PAGE_LINES),
        right: line_right::<L, V>(view, words, page * PAGE_LINES + PAGE_LINES - 1),
    }
}

/// What is known of a map beside a range before a permission is laid over it.
pub(crate) fn beside_of<L: LeafForm, V: View>(view: &V, lay: &Laying) -> Beside
    requires lawful { V.lawful view.now }
    requires words { lay.now.words ≡ length (V.map view.now) }
    ensures { IsBeside L.kind (V.map view.now) lay.now result }
{
    let last = lay.end - 1;
    Beside {
        before: before(view, lay.first, lay.perm, L::REACH),
        behind: behind(view, lay.words, lay.end, lay.perm, L::REACH),
        left: line_left::<L, V>(view, lay.words, lay.first / LINE_WORDS),
        right: line_right::<L, V>(view, lay.words, last / LINE_WORDS),
        first_page: outer_of::<L, V>(view, lay.words, lay.first / PAGE_WORDS),
        last_page: outer_of::<L, V>(view, lay.words, last / PAGE_WORDS),
    }
}
