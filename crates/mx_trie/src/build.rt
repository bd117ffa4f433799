//! Tables built from rows of spans.
ghost use Rattle.std.specs.Prelude.{◌≡◌, ℕ, ◌+◌, ◌*◌, ◌<◌, ◌≤◌, ◌^◌, length, All, IfOk};
ghost use Rattle.mx_words.specs.Blocks.{is_broken};
ghost use Rattle.mx_words.specs.Counting.{bit, sum_below};
ghost use Rattle.mx_words.specs.Runs.{page_words, region_words};
ghost use Rattle.mx_pool.specs.Frames.{free_in};
ghost use Rattle.mx_table.specs.Tables.{most_words, most_modules, IsRow};
ghost use Rattle.mx_trie.specs.Walk.{most_regions, most_pages, most_lines};
ghost use Rattle.mx_trie.specs.After.{IsNeedOf};
ghost use Rattle.mx_trie.specs.Built.{line_crowd, page_crowd, region_broken, region_crowd, rows_map};
ghost use Rattle.mx_trie.specs.Built.{IsLineBuilt, AreLinesBuilt, IsPageBuilt, ArePagesBuilt, IsRegionBuilt};
ghost use Rattle.mx_trie.specs.Built.{AreRegionsBuilt, IsRoomFor, AreDomainsBuilt};

use crate::beside::{line_left, line_right};
use crate::counts::need_of;
use crate::line::put_spill;
use crate::root_table::set_root_entry;
use crate::row_view::RowView;
use crate::scan::{is_page_even, is_region_even, line_perms, page_vector, region_vector};
use crate::sizes::{PAGE_LINES, REGION_PAGES};
use crate::view::View;
use crate::{LeafForm, Roots, Vector};
use mx_pool::Pool;
use mx_words::{Need, NoMemory, Spans};
use std::alloc::Global;

/// What all rows' maps need.
pub(crate) fn need_of_rows<L: LeafForm>(rows: &[Spans], words: u32) -> Need
    requires rows { All (IsRow words) rows.now }
    requires few { length rows.now ≤ most_modules }
    requires small { words ≤ most_words }
    ensures { IsNeedOf L.kind (length rows.now) (rows_map words rows.now) result }
{
    let mut all = Need {
        upper: 0,
        leaf: 0,
        spill: 0,
    };
    for row in rows {
        let need = need_of::<L, RowView>(&RowView { row, words }, words);
        all = Need {
            upper: all.upper + need.upper,
            leaf: all.leaf + need.leaf,
            spill: all.spill + need.spill,
        };
    }
    all
}

/// The entry of a line of a map, with its spill word.
fn build_line<L: LeafForm, V: View>(spill: &mut Pool<1>, view: &V, words: u32, line: u32) -> u32
    requires lawful { V.lawful view.now }
    requires words { words ≡ length (V.map view.now) }
    requires few { words ≤ most_words }
    requires line { line < most_lines }
    requires room { line_crowd L.kind (V.map view.now) line ≤ free_in spill.old }
    ensures { IsLineBuilt L.kind spill.old spill.new (V.map view.now) line result }
{
    let perms = line_perms(view, line);
    let word = Vector::entry(&perms, 0, 0, 0);
    let number = put_spill(spill, None, L::needs_spill(&perms), word);
    let left = line_left::<L, V>(view, words, line);
    let right = line_right::<L, V>(view, words, line);
    L::entry(&perms, left, right, number)
}

/// A new leaf table for a page of a map.
fn build_lines<L: LeafForm, V: View>(
    leaf: &mut Pool<64>,
    spill: &mut Pool<1>,
    view: &V,
    words: u32,
    page: u32,
) -> u32
    requires lawful { V.lawful view.now }
    requires words { words ≡ length (V.map view.now) }
    requires few { words ≤ most_words }
    requires page { page < most_pages }
    requires leaf_room { 0 < free_in leaf.old }
    requires spill_room { page_crowd L.kind (V.map view.now) page ≤ free_in spill.old }
    ensures small { result < 2 ^ 30 }
    ensures built { AreLinesBuilt L.kind leaf.old spill.old leaf.new spill.new
        (V.map view.now) page result 64 }
{
    let frame = match leaf.take() {
        Some(frame) => frame,
        None => unreachable!(),
    };
    for line in 0..PAGE_LINES {
        let entry = build_line::<L, V>(spill, view, words, page * PAGE_LINES + line);
        leaf.set(frame, line, entry);
    }
    frame
}

/// The entry of a page of a map, with its leaf table.
fn build_page<L: LeafForm, V: View>(
    leaf: &mut Pool<64>,
    spill: &mut Pool<1>,
    view: &V,
    words: u32,
    page: u32,
) -> u32
    requires lawful { V.lawful view.now }
    requires words { words ≡ length (V.map view.now) }
    requires few { words ≤ most_words }
    requires page { page < most_pages }
    requires leaf_room { bit (is_broken page_words (V.map view.now) page) ≤ free_in leaf.old }
    requires spill_room { page_crowd L.kind (V.map view.now) page ≤ free_in spill.old }
    ensures { IsPageBuilt L.kind leaf.old spill.old leaf.new spill.new
        (V.map view.now) page result }
{
    if is_page_even(view, page) {
        page_vector(view, page)
    } else {
        4 * build_lines::<L, V>(leaf, spill, view, words, page)
    }
}

/// A new mid table for a region of a map.
fn build_pages<L: LeafForm, V: View>(
    upper: &mut Pool<1024>,
    leaf: &mut Pool<64>,
    spill: &mut Pool<1>,
    view: &V,
    words: u32,
    region: u32,
) -> u32
    requires lawful { V.lawful view.now }
    requires words { words ≡ length (V.map view.now) }
    requires few { words ≤ most_words }
    requires region { region < most_regions }
    requires upper_room { 0 < free_in upper.old }
    requires leaf_room { region_broken (V.map view.now) region ≤ free_in leaf.old }
    requires spill_room { region_crowd L.kind (V.map view.now) region ≤ free_in spill.old }
    ensures small { result < 2 ^ 30 }
    ensures built { ArePagesBuilt L.kind upper.old leaf.old spill.old upper.new leaf.new spill.new
        (V.map view.now) region result 1024 }
{
    let frame = match upper.take() {
        Some(frame) => frame,
        None => unreachable!(),
    };
    for page in 0..REGION_PAGES {
        let entry = build_page::<L, V>(leaf, spill, view, words, region * REGION_PAGES + page);
        upper.set(frame, page, entry);
    }
    frame
}

/// The entry of a region of a map, with its mid table.
fn build_region<L: LeafForm, V: View>(
    upper: &mut Pool<1024>,
    leaf: &mut Pool<64>,
    spill: &mut Pool<1>,
    view: &V,
    words: u32,
    region: u32,
) -> u32
    requires lawful { V.lawful view.now }
    requires words { words ≡ length (V.map view.now) }
    requires few { words ≤ most_words }
    requires region { region < most_regions }
    requires upper_room { bit (is_broken region_words (V.map view.now) region) ≤ free_in upper.old }
    requires leaf_room { region_broken (V.map view.now) region ≤ free_in leaf.old }
    requires spill_room { region_crowd L.kind (V.map view.now) region ≤ free_in spill.old }
    ensures { IsRegionBuilt L.kind upper.old leaf.old spill.old upper.new leaf.new spill.new
        (V.map view.now) region result }
{
    if is_region_even(view, region) {
        region_vector(view, region)
    } else {
        4 * build_pages::<L, V>(upper, leaf, spill, view, words, region)
    }
}

/// A new root table for a map.
fn build_root<L: LeafForm, V: View>(
    upper: &mut Pool<1024>,
    leaf: &mut Pool<64>,
    spill: &mut Pool<1>,
    view: &V,
    words: u32,
) -> u32
    requires lawful { V.lawful view.now }
    requires words { words ≡ length (V.map view.now) }
    requires few { words ≤ most_words }
    requires upper_room { 1 + sum_below most_regions
        (λ x. bit (is_broken region_words (V.map view.now) x)) ≤ free_in upper.old }
    requires leaf_room { sum_below most_regions (region_broken (V.map view.now))
        ≤ free_in leaf.old }
    requires spill_room { sum_below most_regions (region_crowd L.kind (V.map view.now))
        ≤ free_in spill.old }
    ensures { AreRegionsBuilt L.kind upper.old leaf.old spill.old upper.new leaf.new spill.new
        (V.map view.now) result most_regions }
{
    let root = match upper.take() {
        Some(frame) => frame,
        None => unreachable!(),
    };
    for region in 0..16 {
        let entry = build_region::<L, V>(upper, leaf, spill, view, words, region);
        set_root_entry(upper, root, region, entry);
    }
    root
}

/// The tables of all rows.
pub(crate) fn build_rows<L: LeafForm>(
    alloc: Global,
    upper: &mut Pool<1024>,
    leaf: &mut Pool<64>,
    spill: &mut Pool<1>,
    words: u32,
    rows: &[Spans],
) -> Result<Roots, NoMemory>
    requires rows { All (IsRow words) rows.now }
    requires few { length rows.now ≤ most_modules }
    requires small { words ≤ most_words }
    requires room { IsRoomFor L.kind (length rows.now) (rows_map words rows.now)
        upper.old leaf.old spill.old }
    ensures { IfOk result (AreDomainsBuilt L.kind words (length rows.now) (rows_map words rows.now)
        upper.old leaf.old spill.old upper.new leaf.new spill.new) }
{
    let mut roots = Roots::new(alloc);
    for row in rows {
        let root = build_root::<L, RowView>(upper, leaf, spill, &RowView { row, words }, words);
        roots.push(root)?;
    }
    Ok(roots)
}
