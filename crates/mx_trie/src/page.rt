//! One page of a change: its entry in a mid table before and after, with the leaf table that is made for it or
//! given back.
ghost use Rattle.std.specs.Prelude.{◌≡◌, ◌≢◌, ℕ, ◌+◌, ◌-◌, ◌*◌, ◌/◌, ◌<◌, ◌≤◌, ◌^◌, ◌⊎◌, List, length, true, false};
ghost use Rattle.std.specs.Prelude.{None};
ghost use Rattle.mx_words.specs.declared.perm.Perm.{Perm};
ghost use Rattle.mx_words.specs.Blocks.{IsEven};
ghost use Rattle.mx_words.specs.Reach.{vector};
ghost use Rattle.mx_words.specs.Runs.{page_words};
ghost use Rattle.mx_pool.specs.Frames.{free_in};
ghost use Rattle.mx_trie.specs.Leaf.{spill_number};
ghost use Rattle.mx_trie.specs.Walk.{Frames, most_pages, is_pointer, target, vector_perm};
ghost use Rattle.mx_trie.specs.Owned.{IsLeafTable};
ghost use Rattle.mx_trie.specs.Shown.{IsLine};
ghost use Rattle.mx_trie.specs.Laying.{cuts, IsOuter};
ghost use Rattle.mx_trie.specs.Changed.{IsPageChanged, AreLinesChanged};
ghost use Rattle.mx_trie.specs.Steps.{IsSomePage, AreSomeLines, IsPageOpened, IsPageMade, IsBeforeEighth};
ghost use Rattle.mx_trie.specs.Steps.{IsBehindEighth, IsClosable, IsPageClosed, IsPageFreed, IsLineFreed};
ghost use Rattle.mx_trie.specs.Steps.{AreLinesFreed};

use crate::LeafForm;
use crate::even::page_entry;
use crate::flat::flat_vector;
use crate::laying::{Beside, Laying, Outer};
use crate::line::change_line;
use crate::sizes::{LINE_WORDS, PAGE_LINES, PAGE_WORDS};
use crate::vector::perm_in;
use mx_pool::Pool;
use mx_words::Perm;

/// The entry of a page after a change. The page meets the range, or lies so near to it that reaches of its
/// lines may change.
pub(crate) fn change_page<L: LeafForm>(
    leaf: &mut Pool<64>,
    spill: &mut Pool<1>,
    page: u32,
    entry: u32,
    lay: &Laying,
    beside: &Beside,
) -> u32
    requires page { page < most_pages }
    requires table { is_pointer entry ≡ true → IsLeafTable L.kind leaf.old spill.old (target entry) }
    requires stands { IsSomePage L.kind leaf.old spill.old lay.now beside.now page entry }
    requires leaf_room { cuts page_words page lay.now ≤ free_in leaf.old }
    requires spill_room { cuts page_words page lay.now ≤ free_in spill.old }
    ensures { IsPageChanged L.kind leaf.old spill.old leaf.new spill.new lay.now beside.now page entry result }
{
    let begin = page * PAGE_WORDS;
    if lay.covers(begin, begin + PAGE_WORDS) {
        free_page::<L>(leaf, spill, entry);
        return flat_vector(lay.perm);
    }
    if lay.meets(begin, begin + PAGE_WORDS) {
        let frame = open_page::<L>(leaf, page, entry, lay, beside);
        change_lines::<L>(leaf, spill, page, frame, lay, beside);
        return close_page::<L>(leaf, page, frame, lay);
    }
    if entry % 4 != 0 {
        return entry;
    }
    change_lines::<L>(leaf, spill, page, entry / 4, lay, beside);
    entry
}

/// Changes the lines of a page's leaf table that lie in the range or near it.
fn change_lines<L: LeafForm>(
    leaf: &mut Pool<64>,
    spill: &mut Pool<1>,
    page: u32,
    frame: u32,
    lay: &Laying,
    beside: &Beside,
)
    requires page { page < most_pages }
    requires table { IsLeafTable L.kind leaf.old spill.old frame }
    requires stands { AreSomeLines L.kind leaf.old spill.old lay.now beside.now page frame }
    requires room { cuts page_words page lay.now ≤ free_in spill.old }
    ensures { AreLinesChanged L.kind leaf.old spill.old leaf.new spill.new lay.now beside.now page frame }
{
    let from = (lay.near_first(L::REACH) / LINE_WORDS).max(page * PAGE_LINES);
    let to = (lay.near_last(L::REACH) / LINE_WORDS + 1).min(page * PAGE_LINES + PAGE_LINES);
    for line in from..to {
        let old = leaf.get(frame, line % PAGE_LINES);
        let new = change_line::<L>(spill, line, old, lay, beside);
        leaf.set(frame, line % PAGE_LINES, new);
    }
}

/// The frame of a page's leaf table, which is made where the page has a vector.
fn open_page<L: LeafForm>(
    leaf: &mut Pool<64>,
    page: u32,
    entry: u32,
    lay: &Laying,
    beside: &Beside,
) -> u32
    requires page { page < most_pages }
    requires edge { (page ≡ lay.now.first / 1024) ⊎ (page ≡ (lay.now.end - 1) / 1024) }
    requires room { is_pointer entry ≡ false → 0 < free_in leaf.old }
    ensures small { result < 2 ^ 30 }
    ensures opened { (spill : Frames) → (is_pointer entry ≡ true → IsLeafTable L.kind leaf.old spill (target entry)) →
        IsPageOpened L.kind leaf.old spill leaf.new lay.now beside.now page entry result }
{
    if entry % 4 == 0 {
        return entry / 4;
    }
    let outer = if page == lay.first / PAGE_WORDS {
        beside.first_page
    } else {
        beside.last_page
    };
    make_page::<L>(leaf, page, entry, lay.words, outer)
}

/// Makes the leaf table of a page that has a vector, and answers its frame.
fn make_page<L: LeafForm>(
    leaf: &mut Pool<64>,
    page: u32,
    entry: u32,
    words: u32,
    outer: Outer,
) -> u32
    requires page { page < most_pages }
    requires room { 0 < free_in leaf.old }
    ensures small { result < 2 ^ 30 }
    ensures made { IsPageMade L.kind words leaf.old leaf.new outer page entry result 64 }
{
    let frame = match leaf.take() {
        Some(frame) => frame,
        None => unreachable!(),
    };
    for line in 0..PAGE_LINES {
        let new = line_of_vector::<L>(entry, page, line, words, outer);
        leaf.set(frame, line, new);
    }
    frame
}

/// How many words before the eighth `part` of a page with a vector are known to have its permission, up to `most`.
fn before_eighth(entry: u32, part: u32, outer: u32, most: u32) -> u32
    requires part { part < 8 }
    requires few { outer ≤ 31 }
    requires most { most ≤ 31 }
    ensures { IsBeforeEighth entry part outer most result }
{
    if part == 0 {
        outer
    } else if is_alike(entry, part - 1, part) {
        most
    } else {
        0
    }
}

/// The same behind the eighth.
fn behind_eighth(entry: u32, part: u32, outer: u32, most: u32) -> u32
    requires part { part < 8 }
    requires few { outer ≤ 31 }
    requires most { most ≤ 31 }
    ensures { IsBehindEighth entry part outer most result }
{
    if part == 7 {
        outer
    } else if is_alike(entry, part, part + 1) {
        most
    } else {
        0
    }
}

/// Whether two eighths have one permission by a vector.
fn is_alike(entry: u32, one: u32, other: u32) -> bool
    requires one { one < 8 }
    requires other { other < 8 }
    ensures yes { result ≡ true → vector_perm entry one ≡ vector_perm entry other }
    ensures no { result ≡ false → vector_perm entry one ≢ vector_perm entry other }
{
    perm_in(entry / 4, one) == perm_in(entry / 4, other)
}

/// The entry of line `k` of a page that has a vector.
fn line_of_vector<L: LeafForm>(entry: u32, page: u32, k: u32, words: u32, outer: Outer) -> u32
    requires page { page < most_pages }
    requires k { k < 64 }
    ensures none { spill_number L.kind result ≡ None }
    ensures line { (m : List Perm) (spill : Frames) → length m ≡ words → IsOuter L.kind m page outer →
        IsEven m (page * page_words) 128 → entry ≡ vector page_words m (page * page_words) →
        IsLine L.kind spill m (page * 64 + k) result }
{
    let part = k / 8;
    let begin = (page * PAGE_LINES + k) * LINE_WORDS;
    let perm = perm_in(entry / 4, part);
    if begin >= words {
        return L::flat(perm, 0, 0);
    }
    let before = before_eighth(entry, part, outer.left, L::REACH);
    let behind = behind_eighth(entry, part, outer.right, L::REACH);
    let left = (k % 8 * LINE_WORDS + before).min(L::REACH);
    let right = ((7 - k % 8) * LINE_WORDS + behind).min(L::REACH);
    let rest = words.saturating_sub(begin + LINE_WORDS);
    L::flat(perm, left, right.min(rest))
}

/// The entry of a page with a leaf table after its lines were changed: the table, or a vector where the page is
/// eighth-uniform, and then the table is given back.
fn close_page<L: LeafForm>(leaf: &mut Pool<64>, page: u32, frame: u32, lay: &Laying) -> u32
    requires page { page < most_pages }
    requires frame { frame < 2 ^ 30 }
    requires table { (spill : Frames) × IsClosable L.kind leaf.old spill page frame }
    ensures { (spill : Frames) → IsClosable L.kind leaf.old spill page frame →
        IsPageClosed L.kind leaf.old spill leaf.new page frame result }
{
    match page_entry::<L>(leaf, page, frame, lay.edge_in(page * PAGE_WORDS)) {
        Some(entry) => {
            leaf.give(frame);
            entry
        }
        None => 4 * frame,
    }
}

/// Gives the leaf table of a page back, where it has one, and the spill words of its lines.
pub(crate) fn free_page<L: LeafForm>(leaf: &mut Pool<64>, spill: &mut Pool<1>, entry: u32)
    requires { is_pointer entry ≡ true → IsLeafTable L.kind leaf.old spill.old (target entry) }
    ensures { IsPageFreed L.kind leaf.old spill.old leaf.new spill.new entry }
{
    if entry % 4 == 0 {
        if 0 < L::REACH {
            free_lines::<L>(leaf, spill, entry / 4);
        }
        leaf.give(entry / 4);
    }
}

/// Gives the spill words of a leaf table's lines back, whose entries become those of lines without permission.
fn free_lines<L: LeafForm>(leaf: &mut Pool<64>, spill: &mut Pool<1>, frame: u32)
    requires { IsLeafTable L.kind leaf.old spill.old frame }
    ensures { AreLinesFreed L.kind leaf.old spill.old leaf.new spill.new frame 64 }
{
    for place in 0..PAGE_LINES {
        free_line::<L>(leaf, spill, frame, place);
    }
}

/// Gives the spill word of a line back, where it has one, and then its entry becomes that of a line without
/// permission.
fn free_line<L: LeafForm>(leaf: &mut Pool<64>, spill: &mut Pool<1>, frame: u32, place: u32)
    requires place { place < 64 }
    requires table { IsLeafTable L.kind leaf.old spill.old frame }
    ensures { IsLineFreed L.kind leaf.old spill.old leaf.new spill.new frame place }
{
    if let Some(number) = L::spill_of(leaf.get(frame, place)) {
        spill.give(number);
        leaf.set(frame, place, L::flat(Perm::None, 0, 0));
    }
}
