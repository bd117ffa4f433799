//! What the maps need after a change, told without making it: what is taken, less what the blocks that meet the
//! range take, and more by what its edges need afterwards.
ghost use Rattle.std.specs.Prelude.{◌≡◌, ℕ, ◌+◌, ◌-◌, ◌*◌, ◌/◌, ◌<◌, ◌≤◌, true, List, length};
ghost use Rattle.mx_words.specs.declared.perm.Perm.{Perm};
ghost use Rattle.mx_words.specs.Blocks.{is_broken};
ghost use Rattle.mx_words.specs.Changes.{changed_map};
ghost use Rattle.mx_words.specs.Reach.{line_at};
ghost use Rattle.mx_words.specs.Runs.{page_words, region_words};
ghost use Rattle.mx_table.specs.Change.{given};
ghost use Rattle.mx_table.specs.Tables.{most_modules};
ghost use Rattle.mx_pool.specs.Frames.{IsTaken};
ghost use Rattle.mx_trie.specs.Leaf.{needs_spill};
ghost use Rattle.mx_trie.specs.Walk.{Frames, most_regions, most_pages, most_lines, has_mid, has_leaf};
ghost use Rattle.mx_trie.specs.Shown.{AreLines, IsDomain};
ghost use Rattle.mx_trie.specs.Laying.{laid_by, IsLaid};
ghost use Rattle.mx_trie.specs.Read.{read_map};
ghost use Rattle.mx_trie.specs.Standing.{map_at, IsRead, IsTables};
ghost use Rattle.mx_trie.specs.After.{count_from, count_within, map_in, maps_after, IsPathTaken};
ghost use Rattle.mx_trie.specs.After.{IsNeedOf, IsRangeNeed, IsNeedWith, IsNeedSmall, IsNeedMoved};

use crate::change::laying_of;
use crate::changed_view::ChangedView;
use crate::edges::{is_page_broken, is_region_broken};
use crate::laying::Laying;
use crate::root_table::root_entry;
use crate::scan::{has_perm, line_perms};
use crate::sizes::{LINE_WORDS, PAGE_LINES, PAGE_WORDS, REGION_PAGES, REGION_WORDS};
use crate::table_view::map_of;
use crate::view::View;
use crate::{LeafForm, Roots};
use mx_pool::Pool;
use mx_table::Change;
use mx_words::Need;

/// How many of the regions `from` to `to - 1` have mid tables.
#[tactic(auto, using(crate::proofs::Counted::counted_none, crate::proofs::Counted::counted_more))]
fn regions_opened(upper: &Pool<1024>, root: u32, from: u32, to: u32) -> u32
    requires from { from ≤ to }
    requires to { to ≤ most_regions }
    requires taken { IsTaken upper.now root }
    ensures count { result ≡ count_from from to (has_mid upper.now root) }
    ensures most { result ≤ to - from }
{
    let mut count = 0;
    for region in from..to {
        count += u32::from(root_entry(upper, root, region) % 4 == 0);
    }
    count
}

/// Whether a page has a leaf table.
fn has_table(upper: &Pool<1024>, root: u32, page: u32) -> bool
    requires page { page < most_pages }
    requires taken { IsPathTaken upper.now root page }
    ensures { result ≡ has_leaf upper.now root page }
{
    let in_root = root_entry(upper, root, page / REGION_PAGES);
    in_root % 4 == 0 && upper.get(in_root / 4, page % REGION_PAGES) % 4 == 0
}

/// How many of the pages `from` to `to - 1` have leaf tables.
#[tactic(auto, using(crate::proofs::Counted::counted_none, crate::proofs::Counted::counted_more))]
fn pages_opened(upper: &Pool<1024>, root: u32, from: u32, to: u32) -> u32
    requires from { from ≤ to }
    requires to { to ≤ most_pages }
    requires taken { (y : ℕ) → y < most_pages → IsPathTaken upper.now root y }
    ensures count { result ≡ count_from from to (has_leaf upper.now root) }
    ensures most { result ≤ to - from }
{
    let mut count = 0;
    for page in from..to {
        count += u32::from(has_table(upper, root, page));
    }
    count
}

/// How many of the lines of a page that meet the range have spill words. The page has a leaf table.
#[tactic(auto, using(crate::proofs::Counted::counted_none, crate::proofs::Counted::counted_more))]
fn lines_spilled<L: LeafForm>(leaf: &Pool<64>, frame: u32, page: u32, lay: &Laying) -> u32
    requires page { page < most_pages }
    requires meets { page * 1024 < lay.now.end }
    requires from { lay.now.first < page * 1024 + 1024 }
    requires taken { IsTaken leaf.now frame }
    ensures count { (spill : Frames) (m : List Perm) → AreLines L.kind leaf.now spill m page frame →
        result ≡ count_within (lay.now.first / 16) ((lay.now.end - 1) / 16 + 1) (page * 64) 64
        (λ z. needs_spill L.kind (line_at m (z * 16))) }
    ensures most { result ≤ 64 }
{
    let from = (lay.first / LINE_WORDS).max(page * PAGE_LINES);
    let to = ((lay.end - 1) / LINE_WORDS + 1).min(page * PAGE_LINES + PAGE_LINES);
    let mut count = 0;
    for line in from..to {
        count += u32::from(L::spill_of(leaf.get(frame, line % PAGE_LINES)).is_some());
    }
    count
}

/// How many of the lines of a page that meet the range have spill words, where the page may have no leaf table.
fn page_spilled<L: LeafForm>(
    upper: &Pool<1024>,
    leaf: &Pool<64>,
    root: u32,
    page: u32,
    lay: &Laying,
) -> u32
    requires read { (spill : Frames) × IsRead L.kind lay.now.words upper.now leaf.now spill root }
    requires page { page < most_pages }
    requires meets { page * 1024 < lay.now.end }
    requires from { lay.now.first < page * 1024 + 1024 }
    ensures count { (spill : Frames) (m : List Perm) → IsDomain L.kind upper.now leaf.now spill m root →
        result ≡ count_within (lay.now.first / 16) ((lay.now.end - 1) / 16 + 1) (page * 64) 64
        (λ z. needs_spill L.kind (line_at m (z * 16))) }
    ensures most { result ≤ 64 }
{
    if !has_table(upper, root, page) {
        return 0;
    }
    let mid = root_entry(upper, root, page / REGION_PAGES) / 4;
    let frame = upper.get(mid, page % REGION_PAGES) / 4;
    lines_spilled::<L>(leaf, frame, page, lay)
}

/// How many of the lines that meet the range have spill words.
fn pages_spilled<L: LeafForm>(upper: &Pool<1024>, leaf: &Pool<64>, root: u32, lay: &Laying) -> u32
    requires read { (spill : Frames) × IsRead L.kind lay.now.words upper.now leaf.now spill root }
    ensures count { (spill : Frames) (m : List Perm) → IsDomain L.kind upper.now leaf.now spill m root →
        result ≡ count_from (lay.now.first / 16) ((lay.now.end - 1) / 16 + 1)
        (λ z. needs_spill L.kind (line_at m (z * 16))) }
    ensures most { result ≤ most_lines }
{
    let mut count = 0;
    for page in lay.first / PAGE_WORDS..(lay.end - 1) / PAGE_WORDS + 1 {
        count += page_spilled::<L>(upper, leaf, root, page, lay);
    }
    count
}

/// Whether a line needs a spill word.
fn is_line_crowded<L: LeafForm, V: View>(view: &V, line: u32) -> bool
    requires lawful { V.lawful view.now }
    requires line { line < most_lines }
    ensures { result ≡ needs_spill L.kind (line_at (V.map view.now) (line * 16)) }
{
    L::needs_spill(&line_perms(view, line))
}

/// How many of the regions that meet the range aren't eighth-uniform after a change: at most the first and the last
/// one.
fn regions_broken_at_edges<V: View>(new: &V, lay: &Laying, odd: bool) -> u32
    requires lawful { V.lawful new.now }
    requires laid { IsLaid (V.map new.now) lay.now }
    requires odd { odd ≡ true → is_broken page_words (V.map new.now) (lay.now.first / 1024) ≡ true }
    ensures count { result
        ≡ count_from (lay.now.first / region_words) ((lay.now.end - 1) / region_words + 1)
        (is_broken region_words (V.map new.now)) }
    ensures most { result ≤ 2 }
{
    let first = lay.first / REGION_WORDS;
    let last = (lay.end - 1) / REGION_WORDS;
    let at_first = u32::from(is_region_broken(new, lay.first, lay.end, odd, first));
    if first == last {
        return at_first;
    }
    at_first + u32::from(is_region_broken(new, lay.first, lay.end, odd, last))
}

/// The same of pages.
fn pages_broken_at_edges<V: View>(new: &V, lay: &Laying) -> u32
    requires lawful { V.lawful new.now }
    requires laid { IsLaid (V.map new.now) lay.now }
    ensures count { result
        ≡ count_from (lay.now.first / page_words) ((lay.now.end - 1) / page_words + 1)
        (is_broken page_words (V.map new.now)) }
    ensures most { result ≤ 2 }
{
    let first = lay.first / PAGE_WORDS;
    let last = (lay.end - 1) / PAGE_WORDS;
    let at_first = u32::from(is_page_broken(new, lay.first, lay.end, first));
    if first == last {
        return at_first;
    }
    at_first + u32::from(is_page_broken(new, lay.first, lay.end, last))
}

/// How many of the lines that meet the range need a spill word after a change.
fn lines_crowded_at_edges<L: LeafForm, V: View>(new: &V, lay: &Laying) -> u32
    requires lawful { V.lawful new.now }
    requires laid { IsLaid (V.map new.now) lay.now }
    ensures count { result ≡ count_from (lay.now.first / 16) ((lay.now.end - 1) / 16 + 1)
        (λ z. needs_spill L.kind (line_at (V.map new.now) (z * 16))) }
    ensures most { result ≤ 2 }
{
    let first = lay.first / LINE_WORDS;
    let last = (lay.end - 1) / LINE_WORDS;
    let at_first = u32::from(is_line_crowded::<L, V>(new, first));
    if first == last {
        return at_first;
    }
    at_first + u32::from(is_line_crowded::<L, V>(new, last))
}

/// Whether the range lies in one page, and that is broken. So many of the pages that meet the range are.
fn is_one_broken(lay: &Laying, broken: u32) -> bool
    ensures some { result ≡ true → 0 < broken }
    ensures one { result ≡ true → lay.now.first / 1024 ≡ (lay.now.end - 1) / 1024 }
{
    broken > 0 && lay.first / PAGE_WORDS == (lay.end - 1) / PAGE_WORDS
}

/// What the blocks that meet the range need before a change: the tables and spill words that they have.
fn need_in_range<L: LeafForm>(upper: &Pool<1024>, leaf: &Pool<64>, root: u32, lay: &Laying) -> Need
    requires read { (spill : Frames) × IsRead L.kind lay.now.words upper.now leaf.now spill root }
    ensures { (spill : Frames) (m : List Perm) → IsDomain L.kind upper.now leaf.now spill m root →
        IsRangeNeed L.kind lay.now m result }
{
    let last = lay.end - 1;
    Need {
        upper: regions_opened(
            upper,
            root,
            lay.first / REGION_WORDS,
            last / REGION_WORDS + 1,
        ),
        leaf: pages_opened(upper, root, lay.first / PAGE_WORDS, last / PAGE_WORDS + 1),
        spill: pages_spilled::<L>(upper, leaf, root, lay),
    }
}

/// What they need afterwards, which is what those at the range's two edges need.
fn need_at_edges<L: LeafForm, V: View>(new: &V, lay: &Laying) -> Need
    requires lawful { V.lawful new.now }
    requires laid { IsLaid (V.map new.now) lay.now }
    ensures need { IsRangeNeed L.kind lay.now (V.map new.now) result }
    ensures few { IsNeedSmall result }
{
    let leaf = pages_broken_at_edges(new, lay);
    Need {
        upper: regions_broken_at_edges(new, lay, is_one_broken(lay, leaf)),
        leaf,
        spill: lines_crowded_at_edges::<L, V>(new, lay),
    }
}

/// A need with one part of it in place of another.
fn need_moved(need: Need, before: Need, after: Need) -> Need
    requires upper { before.upper ≤ need.upper + after.upper }
    requires leaf { before.leaf ≤ need.leaf + after.leaf }
    requires spill { before.spill ≤ need.spill + after.spill }
    requires few { IsNeedSmall need }
    requires few_after { IsNeedSmall after }
    ensures upper { result.upper + before.upper ≡ need.upper + after.upper }
    ensures leaf { result.leaf + before.leaf ≡ need.leaf + after.leaf }
    ensures spill { result.spill + before.spill ≡ need.spill + after.spill }
{
    Need {
        upper: need.upper + after.upper - before.upper,
        leaf: need.leaf + after.leaf - before.leaf,
        spill: need.spill + after.spill - before.spill,
    }
}

/// The map of a view with a permission laid over a range.
fn laid_over<'a, V: View>(old: &'a V, lay: &Laying) -> ChangedView<'a, V>
    requires lawful { V.lawful old.now }
    requires long { length (V.map old.now) ≡ lay.now.words }
    ensures lawful { ⟦<ChangedView<'static, V> as View>⟧.lawful result }
    ensures map { ⟦<ChangedView<'static, V> as View>⟧.map result ≡ laid_by lay.now (V.map old.now) }
    ensures laid { IsLaid (⟦<ChangedView<'static, V> as View>⟧.map result) lay.now }
{
    ChangedView {
        under: old,
        first: lay.first,
        count: lay.end - lay.first,
        perm: lay.perm,
    }
}

/// What all maps need after a permission is laid over a range of the domain with a root table, where `need` is what
/// they need before.
fn need_laid<L: LeafForm>(
    upper: &Pool<1024>,
    leaf: &Pool<64>,
    spill: &Pool<1>,
    root: u32,
    lay: &Laying,
    need: Need,
) -> Need
    requires read { IsRead L.kind lay.now.words upper.now leaf.now spill.now root }
    requires part { IsNeedWith L.kind (map_in L.kind upper.now leaf.now spill.now root lay.now) need }
    requires few { IsNeedSmall need }
    ensures { let m = map_in L.kind upper.now leaf.now spill.now root lay.now in
        IsNeedMoved L.kind m (laid_by lay.now m) need result }
{
    let old = map_of::<L>(upper, leaf, spill, root, lay.words);
    if has_perm(&old, lay.first, lay.end, lay.perm) {
        return need;
    }
    let new = laid_over(&old, lay);
    let before = need_in_range::<L>(upper, leaf, root, lay);
    let after = need_at_edges::<L, _>(&new, lay);
    need_moved(need, before, after)
}

/// What all maps need after a change of one domain's map, where `need` is what they need before.
fn need_changed<L: LeafForm>(
    upper: &Pool<1024>,
    leaf: &Pool<64>,
    spill: &Pool<1>,
    root: u32,
    words: u32,
    row: u32,
    change: &Change,
    need: Need,
) -> Need
    requires read { IsRead L.kind words upper.now leaf.now spill.now root }
    requires row { row < most_modules }
    requires some { 0 < change.now.count }
    requires inside { change.now.first + change.now.count ≤ words }
    requires part { IsNeedWith L.kind (read_map L.kind upper.now leaf.now spill.now words root) need }
    requires few { IsNeedSmall need }
    ensures { let m = read_map L.kind upper.now leaf.now spill.now words root in
        IsNeedMoved L.kind m
        (changed_map change.now.first change.now.count (given change.now (row + 1)) m) need result }
{
    match laying_of(words, row, change) {
        Some(lay) => need_laid::<L>(upper, leaf, spill, root, &lay, need),
        None => need,
    }
}

/// What all maps need after a lawful change, where `need` is what they need before.
pub(crate) fn need_after<L: LeafForm>(
    upper: &Pool<1024>,
    leaf: &Pool<64>,
    spill: &Pool<1>,
    roots: &Roots,
    words: u32,
    change: &Change,
    need: Need,
) -> Need
    requires tables { IsTables L.kind words upper.now leaf.now spill.now roots.now }
    requires few { length roots.now ≤ most_modules }
    requires some { 0 < change.now.count }
    requires inside { change.now.first + change.now.count ≤ words }
    requires need { IsNeedOf L.kind (length roots.now)
        (map_at L.kind words upper.now leaf.now spill.now roots.now) need }
    ensures { IsNeedOf L.kind (length roots.now)
        (maps_after change.now (map_at L.kind words upper.now leaf.now spill.now roots.now)) result }
{
    let mut need = need;
    for row in 0..roots.count() {
        need = need_changed::<L>(upper, leaf, spill, roots.at(row), words, row, change, need);
    }
    need
}
