//! A domain's map as its tables tell it.
ghost use Rattle.std.specs.Prelude.{◌≡◌, ℕ, ◌+◌, ◌*◌, ◌/◌, ◌%◌, ◌<◌, ◌≤◌, ◌⊎◌};
ghost use Rattle.mx_words.specs.Rights.{number};
ghost use Rattle.mx_words.specs.Runs.{line_words, page_words};
ghost use Rattle.mx_pool.specs.Frames.{IsTaken};
ghost use Rattle.mx_table.specs.Tables.{most_words};
ghost use Rattle.mx_trie.specs.Digits.{digit};
ghost use Rattle.mx_trie.specs.Read.{read_map};
ghost use Rattle.mx_trie.specs.Standing.{IsRead};
ghost use Rattle.mx_trie.specs.Views.{IsRound, IsWide};

use crate::LeafForm;
use crate::entry::around_line;
use crate::root_table::root_entry;
use crate::sizes::{
    LINE_WORDS, PAGE_EIGHTH, PAGE_LINES, PAGE_WORDS, REGION_EIGHTH, REGION_PAGES, REGION_WORDS,
};
use crate::vector::perm_in;
use crate::view::View;
use mx_pool::Pool;
use mx_words::Span;
use std::marker::PhantomData;

/// A span round a word on which a domain's tables have one permission: an eighth of a block that has a vector,
/// or the whole block where its eighths have one permission, or the run in a line.
fn around_in<L: LeafForm>(
    upper: &Pool<1024>,
    leaf: &Pool<64>,
    spill: &Pool<1>,
    root: u32,
    word: u32,
) -> Span
    requires read { (words : ℕ) × IsRead L.kind words upper.now leaf.now spill.now root }
    requires word { word < most_words }
    ensures { (words : ℕ) → IsRead L.kind words upper.now leaf.now spill.now root →
        IsRound (read_map L.kind upper.now leaf.now spill.now words root) word result }
{
    let in_root = root_entry(upper, root, word / REGION_WORDS);
    if in_root % 4 != 0 {
        return part_of(in_root, alike_in(in_root, REGION_EIGHTH), word);
    }
    let in_mid = upper.get(in_root / 4, word / PAGE_WORDS % REGION_PAGES);
    if in_mid % 4 != 0 {
        return part_of(in_mid, alike_in(in_mid, PAGE_EIGHTH), word);
    }
    let in_leaf = leaf.get(in_mid / 4, word / LINE_WORDS % PAGE_LINES);
    around_line::<L>(spill, in_leaf, word / LINE_WORDS, word)
}

/// As `around_in`; where a whole eighth of the word's region or page has one entry, that eighth.
fn far_in<L: LeafForm>(
    upper: &Pool<1024>,
    leaf: &Pool<64>,
    spill: &Pool<1>,
    root: u32,
    word: u32,
) -> Span
    requires read { (words : ℕ) × IsRead L.kind words upper.now leaf.now spill.now root }
    requires word { word < most_words }
    ensures { (words : ℕ) → IsRead L.kind words upper.now leaf.now spill.now root →
        IsRound (read_map L.kind upper.now leaf.now spill.now words root) word result }
{
    let near = around_in::<L>(upper, leaf, spill, root, word);
    let in_root = root_entry(upper, root, word / REGION_WORDS);
    if in_root % 4 != 0 {
        return near;
    }
    let in_mid = upper.get(in_root / 4, word / PAGE_WORDS % REGION_PAGES);
    if in_mid % 4 != 0 {
        return wide_pages(upper, in_root / 4, near, word);
    }
    wide_lines(leaf, in_mid / 4, near, word)
}

/// The eighth of a region where a span holds the word's page, and all the eighth's pages have one entry; else
/// the span.
fn wide_pages(upper: &Pool<1024>, mid: u32, near: Span, word: u32) -> Span
    requires taken { IsTaken upper.now mid }
    requires whole { near.first + near.count ≤ most_words }
    requires word { word < most_words }
    ensures { (result ≡ near) ⊎ IsWide upper.now mid 128 page_words word near result }
{
    let page = word / PAGE_WORDS * PAGE_WORDS;
    if page < near.first || near.first + near.count < page + PAGE_WORDS {
        return near;
    }
    if !upper.is_alike(mid, word / REGION_EIGHTH % 8 * 128, 128) {
        return near;
    }
    Span {
        first: word / REGION_EIGHTH * REGION_EIGHTH,
        count: REGION_EIGHTH,
        perm: near.perm,
    }
}

/// The eighth of a page where a span holds the word's line, and all the eighth's lines have one entry; else the
/// span.
fn wide_lines(leaf: &Pool<64>, frame: u32, near: Span, word: u32) -> Span
    requires taken { IsTaken leaf.now frame }
    requires whole { near.first + near.count ≤ most_words }
    requires word { word < most_words }
    ensures { (result ≡ near) ⊎ IsWide leaf.now frame 8 line_words word near result }
{
    let line = word / LINE_WORDS * LINE_WORDS;
    if line < near.first || near.first + near.count < line + LINE_WORDS {
        return near;
    }
    if !leaf.is_alike(frame, word / PAGE_EIGHTH % 8 * 8, 8) {
        return near;
    }
    Span {
        first: word / PAGE_EIGHTH * PAGE_EIGHTH,
        count: PAGE_EIGHTH,
        perm: near.perm,
    }
}

/// How many words, aligned in blocks of their number, have one permission by a vector of parts of `part` words:
/// those of a part, or those of the block where all its parts have one permission.
fn alike_in(entry: u32, part: u32) -> u32
    requires { part ≤ most_words }
    ensures { (result ≡ part) ⊎ ((result ≡ 8 * part) × ((e : ℕ) → e < 8 → digit (entry / 4) e ≡ entry / 4 % 4)) }
{
    let perms = entry / 4;
    if perms == 0x5555 * (perms % 4) {
        8 * part
    } else {
        part
    }
}

/// The aligned block of `part` words that holds a word, with the permission of its part of a vector.
fn part_of(entry: u32, part: u32, word: u32) -> Span
    requires some { 0 < part }
    ensures first { result.first ≡ word / part * part }
    ensures count { result.count ≡ part }
    ensures perm { number result.perm ≡ digit (entry / 4) (word / part % 8) }
{
    Span {
        first: word / part * part,
        count: part,
        perm: perm_in(entry / 4, word / part % 8),
    }
}

/// The map of the domain with a root table.
#[derive(Drop)]
pub(crate) struct TableView<'a, L: LeafForm> {
    pub upper: &'a Pool<1024>,
    pub leaf: &'a Pool<64>,
    pub spill: &'a Pool<1>,
    /// The root table's frame.
    pub root: u32,
    /// The number of RAM words.
    pub words: u32,
    pub form: PhantomData<L>,
}

/// The map of the domain with a root table.
pub(crate) fn map_of<'a, L: LeafForm>(
    upper: &'a Pool<1024>,
    leaf: &'a Pool<64>,
    spill: &'a Pool<1>,
    root: u32,
    words: u32,
) -> TableView<'a, L>
    ensures map { ⟦<TableView<'static, L> as View>⟧.map result
        ≡ read_map L.kind upper.now leaf.now spill.now words root }
    ensures lawful { IsRead L.kind words upper.now leaf.now spill.now root →
        ⟦<TableView<'static, L> as View>⟧.lawful result }
{
    TableView {
        upper,
        leaf,
        spill,
        root,
        words,
        form: PhantomData,
    }
}

impl<L: LeafForm> View for TableView<'_, L> {
    ghost map = { λ v. read_map L.kind v.upper.now v.leaf.now v.spill.now v.words v.root };

    ghost lawful = { λ v. IsRead L.kind v.words v.upper.now v.leaf.now v.spill.now v.root };

    fn around(&self, word: u32) -> Span {
        around_in::<L>(self.upper, self.leaf, self.spill, self.root, word)
    }

    fn around_far(&self, word: u32) -> Span {
        far_in::<L>(self.upper, self.leaf, self.spill, self.root, word)
    }
}
