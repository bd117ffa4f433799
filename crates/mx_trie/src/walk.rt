//! The walk of a domain's tables for one word: three indexed reads at most, and a decode.
ghost use Rattle.std.specs.Prelude.{◌≡◌, ℕ, ◌+◌, ◌-◌, ◌*◌, ◌/◌, ◌%◌, ◌<◌, ◌≤◌, ◌^◌, List, length, min, true, false};
ghost use Rattle.mx_words.specs.declared.perm.Perm.{Perm};
ghost use Rattle.mx_words.specs.Rights.{number};
ghost use Rattle.mx_words.specs.Reach.{span, stored, first_in};
ghost use Rattle.mx_trie.specs.Digits.{digit};
ghost use Rattle.mx_trie.specs.Leaf.{cut_at};
ghost use Rattle.mx_trie.specs.Found.{IsFound, IsSomeFound};
ghost use Rattle.mx_trie.specs.Read.{read_map};
ghost use Rattle.mx_trie.specs.Standing.{IsRead};

use crate::LeafForm;
use crate::root_table::root_entry;
use crate::sizes::{
    LINE_WORDS, PAGE_EIGHTH, PAGE_LINES, PAGE_WORDS, REGION_EIGHTH, REGION_PAGES, REGION_WORDS,
};
use crate::vector::perm_in;
use mx_pool::Pool;
use mx_words::{Level, Shown, Span};

/// Where a walk ends, and the stored word that it finds there.
#[derive(Clone, Copy, PartialEq, Eq)]
pub(crate) enum Found {
    /// The vector of the word's region.
    Root(u32),
    /// The vector of the word's page.
    Mid(u32),
    /// The leaf entry of the word's line, which has no spill word.
    Leaf(u32),
    /// The leaf entry of the word's line, and its spill word.
    Spill(u32, u32),
}

/// Walks the tables below a root table for a word of a RAM of `words` words.
pub(crate) fn find<L: LeafForm>(
    upper: &Pool<1024>,
    leaf: &Pool<64>,
    spill: &Pool<1>,
    words: u32,
    root: u32,
    word: u32,
) -> Found
    requires read { IsRead L.kind words upper.now leaf.now spill.now root }
    requires inside { word < words }
    ensures { IsFound L.kind (read_map L.kind upper.now leaf.now spill.now words root) word result }
{
    let in_root = root_entry(upper, root, word / REGION_WORDS);
    if in_root % 4 != 0 {
        return Found::Root(in_root);
    }
    let in_mid = upper.get(in_root / 4, word / PAGE_WORDS % REGION_PAGES);
    if in_mid % 4 != 0 {
        return Found::Mid(in_mid);
    }
    let in_leaf = leaf.get(in_mid / 4, word / LINE_WORDS % PAGE_LINES);
    match L::spill_of(in_leaf) {
        None => Found::Leaf(in_leaf),
        Some(number) => Found::Spill(in_leaf, spill.get(number, 0)),
    }
}

/// The words of RAM that a part of a vector stands for, which are aligned in blocks of `part` words.
fn part_span(entry: u32, part: u32, word: u32, words: u32) -> Span
    requires some { 0 < part }
    requires inside { word < words }
    ensures first { result.first ≡ first_in part word }
    ensures count { result.count ≡ min part (words - first_in part word) }
    ensures perm { number result.perm ≡ digit (entry / 4) (word / part % 8) }
{
    let first = word / part * part;
    Span {
        first,
        count: part.min(words - first),
        perm: perm_in(entry / 4, word / part % 8),
    }
}

/// A span, cut at RAM's end.
fn cut(run: Span, words: u32) -> Span
    ensures { result ≡ cut_at words run }
{
    Span {
        first: run.first,
        count: run.count.min(words.saturating_sub(run.first)),
        perm: run.perm,
    }
}

/// The span that a walk answers for a word, by what it found.
pub(crate) fn found_span<L: LeafForm>(found: Found, word: u32, words: u32) -> Span
    requires found { IsSomeFound L.kind word found }
    requires inside { word < words }
    ensures { (map : List Perm) → IsFound L.kind map word found → length map ≡ words → result ≡ span L.kind map word }
{
    let line = word / LINE_WORDS * LINE_WORDS;
    match found {
        Found::Root(entry) => part_span(entry, REGION_EIGHTH, word, words),
        Found::Mid(entry) => part_span(entry, PAGE_EIGHTH, word, words),
        Found::Leaf(entry) => cut(L::run(entry, 0, line, word), words),
        Found::Spill(entry, spilled) => cut(L::run(entry, spilled, line, word), words),
    }
}

/// An item that stands for a word's block of `size` words.
fn block_item(level: Level, size: u32, word: u32, words: u32, stored: u32) -> Shown
    requires some { 0 < size }
    requires inside { word < words }
    ensures { result ≡ record {
      level = level;
      first = first_in size word;
      count = min size (words - first_in size word);
      stored = stored;
    } }
{
    let first = word / size * size;
    Shown {
        level,
        first,
        count: size.min(words - first),
        stored,
    }
}

/// The stored item that decides a word, by what a walk found.
pub(crate) fn found_item<L: LeafForm>(found: Found, word: u32, words: u32) -> Shown
    requires { word < words }
    ensures { (map : List Perm) → IsFound L.kind map word found → length map ≡ words → result ≡ stored L.kind map word }
{
    match found {
        Found::Root(entry) => block_item(Level::Root, REGION_WORDS, word, words, entry),
        Found::Mid(entry) => block_item(Level::Mid, PAGE_WORDS, word, words, entry),
        Found::Leaf(entry) => block_item(Level::Leaf, LINE_WORDS, word, words, entry),
        Found::Spill(_, spilled) => block_item(Level::Spill, LINE_WORDS, word, words, spilled),
    }
}
