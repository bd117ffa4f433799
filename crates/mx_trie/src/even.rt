//! Whether a page or a region is eighth-uniform, told by its own table, and its vector.
ghost use Rattle.std.specs.Prelude.{◌≡◌, ℕ, ◌+◌, ◌*◌, ◌<◌, ◌≤◌, List, length, true, false};
ghost use Rattle.mx_words.specs.Ranges.{most_words};
ghost use Rattle.mx_words.specs.declared.perm.Perm.{Perm};
ghost use Rattle.mx_words.specs.declared.tables.Kind.{Kind};
ghost use Rattle.mx_words.specs.Rights.{perm_at};
ghost use Rattle.mx_words.specs.Runs.{page_words, region_words};
ghost use Rattle.mx_pool.specs.Frames.{IsTaken};
ghost use Rattle.mx_trie.specs.Walk.{Frames, most_pages, most_lines};
ghost use Rattle.mx_trie.specs.Shown.{IsLine, IsLineOfSome, AreLines, ArePages};
ghost use Rattle.mx_trie.specs.Steps.{IsPermOf, IsEntryOf, AreLinesOfSome};

use crate::LeafForm;
use crate::flat::flat_vector;
use crate::sizes::{LINE_WORDS, PAGE_EIGHTH, PAGE_LINES, REGION_EIGHTH};
use crate::vector::perm_in;
use mx_pool::Pool;
use mx_words::Perm;

/// The permission of all words of a line, by its entry. `None` where they have more than one.
fn line_perm<L: LeafForm>(entry: u32, line: u32) -> Option<Perm>
    requires line { line < most_lines }
    requires stands { (spill : Frames) × IsLineOfSome L.kind spill line entry }
    ensures { (spill : Frames) (m : List Perm) → length m ≤ most_words → IsLine L.kind spill m line entry →
        IsPermOf m (line * 16) 16 result }
{
    if L::spill_of(entry).is_some() {
        return None;
    }
    let begin = line * LINE_WORDS;
    let run = L::run(entry, 0, begin, begin);
    if run.first + run.count < begin + LINE_WORDS {
        return None;
    }
    Some(run.perm)
}

/// Whether all words of a line have a permission, by its entry.
fn is_line_of<L: LeafForm>(entry: u32, line: u32, perm: Perm) -> bool
    requires line { line < most_lines }
    requires stands { (spill : Frames) × IsLineOfSome L.kind spill line entry }
    ensures yes { (spill : Frames) (m : List Perm) →
        length m ≤ most_words → IsLine L.kind spill m line entry → result ≡ true →
        (k : ℕ) → k < 16 → perm_at m (line * 16 + k) ≡ perm }
    ensures no { (spill : Frames) (m : List Perm) →
        length m ≤ most_words → IsLine L.kind spill m line entry → result ≡ false →
        ((k : ℕ) → k < 16 → perm_at m (line * 16 + k) ≡ perm) → ⊥ }
{
    match line_perm::<L>(entry, line) {
        Some(found) => found == perm,
        None => false,
    }
}

/// The permission of all words of an eighth of a page, by the page's leaf table. `None` where they have more
/// than one.
fn eighth_perm<L: LeafForm>(leaf: &Pool<64>, page: u32, frame: u32, part: u32) -> Option<Perm>
    requires page { page < most_pages }
    requires part { part < 8 }
    requires taken { IsTaken leaf.now frame }
    requires stands { (spill : Frames) × AreLinesOfSome L.kind leaf.now spill page frame }
    ensures { (spill : Frames) (m : List Perm) → length m ≤ most_words →
        AreLines L.kind leaf.now spill m page frame →
        IsPermOf m (page * 1024 + part * 128) 128 result }
{
    let first = page * PAGE_LINES + 8 * part;
    let perm = line_perm::<L>(leaf.get(frame, 8 * part), first)?;
    for k in 1..8 {
        if !is_line_of::<L>(leaf.get(frame, 8 * part + k), first + k, perm) {
            return None;
        }
    }
    Some(perm)
}

/// The vector of a page, by its leaf table. `None` where it isn't eighth-uniform. The eighth of the word `near`
/// is looked at first.
pub(crate) fn page_entry<L: LeafForm>(
    leaf: &Pool<64>,
    page: u32,
    frame: u32,
    near: u32,
) -> Option<u32>
    requires page { page < most_pages }
    requires taken { IsTaken leaf.now frame }
    requires stands { (spill : Frames) × AreLinesOfSome L.kind leaf.now spill page frame }
    ensures { (spill : Frames) (m : List Perm) → length m ≤ most_words →
        AreLines L.kind leaf.now spill m page frame →
        IsEntryOf page_words m page result }
{
    eighth_perm::<L>(leaf, page, frame, near / PAGE_EIGHTH % 8)?;
    let mut entry = 0;
    for e in 0..8 {
        let perm = eighth_perm::<L>(leaf, page, frame, 7 - e)?;
        entry = perm.number() + 4 * entry;
    }
    Some(1 + 4 * entry)
}

/// The permission of all words of an eighth of a region, by the region's mid table. `None` where they have more
/// than one.
fn wide_perm(upper: &Pool<1024>, frame: u32, part: u32) -> Option<Perm>
    requires part { part < 8 }
    requires taken { IsTaken upper.now frame }
    ensures { (kind : Kind) (leaf spill : Frames) (m : List Perm) (x : ℕ) →
        ArePages kind upper.now leaf spill m x frame →
        IsPermOf m (x * 1048576 + part * 131072) 131072 result }
{
    let entry = upper.get(frame, 128 * part);
    let perm = perm_in(entry / 4, 0);
    if entry != flat_vector(perm) || !upper.is_alike(frame, 128 * part, 128) {
        return None;
    }
    Some(perm)
}

/// The vector of a region, by its mid table. `None` where it isn't eighth-uniform. The eighth of the word
/// `near` is looked at first.
pub(crate) fn region_entry(upper: &Pool<1024>, frame: u32, near: u32) -> Option<u32>
    requires taken { IsTaken upper.now frame }
    ensures { (kind : Kind) (leaf spill : Frames) (m : List Perm) (x : ℕ) →
        ArePages kind upper.now leaf spill m x frame → IsEntryOf region_words m x result }
{
    wide_perm(upper, frame, near / REGION_EIGHTH % 8)?;
    let mut entry = 0;
    for e in 0..8 {
        let perm = wide_perm(upper, frame, 7 - e)?;
        entry = perm.number() + 4 * entry;
    }
    Some(1 + 4 * entry)
}
