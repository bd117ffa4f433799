//! One region of a change: its entry in a root table before and after, with the mid table that is made for it
//! or given back.
ghost use Rattle.std.specs.Prelude.{◌≡◌, ℕ, ◌<◌, ◌≤◌, ◌^◌, true, false};
ghost use Rattle.mx_words.specs.declared.tables.Kind.{Kind};
ghost use Rattle.mx_words.specs.Runs.{region_words};
ghost use Rattle.mx_pool.specs.Frames.{IsTaken, free_in};
ghost use Rattle.mx_trie.specs.Walk.{Frames, most_regions, is_pointer, target};
ghost use Rattle.mx_trie.specs.Owned.{IsMidTable};
ghost use Rattle.mx_trie.specs.Laying.{cuts};
ghost use Rattle.mx_trie.specs.Changed.{IsRegionChanged, ArePagesChanged};
ghost use Rattle.mx_trie.specs.Steps.{IsSomeRegion, AreSomePages, IsRegionOpened, IsClosableRegion, IsRegionClosed};
ghost use Rattle.mx_trie.specs.Steps.{IsRegionFreed, ArePagesFreed};

use crate::LeafForm;
use crate::even::region_entry;
use crate::flat::flat_vector;
use crate::laying::{Beside, Laying};
use crate::page::{change_page, free_page};
use crate::sizes::{PAGE_WORDS, REGION_PAGES, REGION_WORDS};
use crate::vector::perm_in;
use mx_pool::Pool;

/// The entry of a region after a change. The region meets the range, or lies so near to it that reaches of its
/// lines may change.
pub(crate) fn change_region<L: LeafForm>(
    upper: &mut Pool<1024>,
    leaf: &mut Pool<64>,
    spill: &mut Pool<1>,
    region: u32,
    entry: u32,
    lay: &Laying,
    beside: &Beside,
) -> u32
    requires region { region < most_regions }
    requires table { is_pointer entry ≡ true → IsMidTable L.kind upper.old leaf.old spill.old (target entry) }
    requires stands { IsSomeRegion L.kind upper.old leaf.old spill.old lay.now beside.now region entry }
    requires upper_room { cuts region_words region lay.now ≤ free_in upper.old }
    requires leaf_room { cuts region_words region lay.now ≤ free_in leaf.old }
    requires spill_room { cuts region_words region lay.now ≤ free_in spill.old }
    ensures { IsRegionChanged L.kind upper.old leaf.old spill.old upper.new leaf.new spill.new
        lay.now beside.now region entry result }
{
    let begin = region * REGION_WORDS;
    if lay.covers(begin, begin + REGION_WORDS) {
        free_region::<L>(upper, leaf, spill, entry);
        return flat_vector(lay.perm);
    }
    if lay.meets(begin, begin + REGION_WORDS) {
        let frame = open_region(upper, entry);
        change_pages::<L>(upper, leaf, spill, region, frame, lay, beside);
        return close_region(upper, region, frame, lay);
    }
    if entry % 4 == 0 {
        change_pages::<L>(upper, leaf, spill, region, entry / 4, lay, beside);
    }
    entry
}

/// Changes the pages of a region's mid table that meet the range or lie near it.
fn change_pages<L: LeafForm>(
    upper: &mut Pool<1024>,
    leaf: &mut Pool<64>,
    spill: &mut Pool<1>,
    region: u32,
    frame: u32,
    lay: &Laying,
    beside: &Beside,
)
    requires region { region < most_regions }
    requires table { IsMidTable L.kind upper.old leaf.old spill.old frame }
    requires stands { AreSomePages L.kind upper.old leaf.old spill.old lay.now beside.now region frame }
    requires leaf_room { cuts region_words region lay.now ≤ free_in leaf.old }
    requires spill_room { cuts region_words region lay.now ≤ free_in spill.old }
    ensures { ArePagesChanged L.kind upper.old leaf.old spill.old upper.new leaf.new spill.new
        lay.now beside.now region frame }
{
    let from = (lay.near_first(L::REACH) / PAGE_WORDS).max(region * REGION_PAGES);
    let to = (lay.near_last(L::REACH) / PAGE_WORDS + 1).min(region * REGION_PAGES + REGION_PAGES);
    for page in from..to {
        let old = upper.get(frame, page % REGION_PAGES);
        let new = change_page::<L>(leaf, spill, page, old, lay, beside);
        upper.set(frame, page % REGION_PAGES, new);
    }
}

/// The frame of a region's mid table, which is made where the region has a vector.
fn open_region(upper: &mut Pool<1024>, entry: u32) -> u32
    requires room { is_pointer entry ≡ false → 0 < free_in upper.old }
    ensures small { result < 2 ^ 30 }
    ensures opened { (kind : Kind) (leaf spill : Frames) →
        (is_pointer entry ≡ true → IsMidTable kind upper.old leaf spill (target entry)) →
        IsRegionOpened kind upper.old leaf spill upper.new entry result }
{
    if entry % 4 == 0 {
        return entry / 4;
    }
    let frame = match upper.take() {
        Some(frame) => frame,
        None => unreachable!(),
    };
    for part in 0..8 {
        let vector = flat_vector(perm_in(entry / 4, part));
        upper.fill(frame, 128 * part, 128, vector);
    }
    frame
}

/// The entry of a region with a mid table after its pages were changed: the table, or a vector where the region
/// is eighth-uniform, and then the table is given back.
fn close_region(upper: &mut Pool<1024>, region: u32, frame: u32, lay: &Laying) -> u32
    requires region { region < most_regions }
    requires frame { frame < 2 ^ 30 }
    requires taken { IsTaken upper.old frame }
    ensures { (kind : Kind) (leaf spill : Frames) → IsClosableRegion kind upper.old leaf spill region frame →
        IsRegionClosed kind upper.old leaf spill upper.new region frame result }
{
    match region_entry(upper, frame, lay.edge_in(region * REGION_WORDS)) {
        Some(entry) => {
            upper.give(frame);
            entry
        }
        None => 4 * frame,
    }
}

/// Gives the mid table of a region back, where it has one, and all tables and spill words below it.
fn free_region<L: LeafForm>(
    upper: &mut Pool<1024>,
    leaf: &mut Pool<64>,
    spill: &mut Pool<1>,
    entry: u32,
)
    requires { is_pointer entry ≡ true → IsMidTable L.kind upper.old leaf.old spill.old (target entry) }
    ensures { IsRegionFreed L.kind upper.old leaf.old spill.old upper.new leaf.new spill.new entry }
{
    if entry % 4 == 0 {
        free_pages::<L>(upper, leaf, spill, entry / 4);
        upper.give(entry / 4);
    }
}

/// Gives all tables and spill words below a mid table back, whose entries become the vectors of pages without
/// permission.
fn free_pages<L: LeafForm>(
    upper: &mut Pool<1024>,
    leaf: &mut Pool<64>,
    spill: &mut Pool<1>,
    frame: u32,
)
    requires { IsMidTable L.kind upper.old leaf.old spill.old frame }
    ensures { ArePagesFreed L.kind upper.old leaf.old spill.old upper.new leaf.new spill.new frame }
{
    for place in 0..REGION_PAGES {
        let old = upper.get(frame, place);
        if old % 4 == 0 {
            free_page::<L>(leaf, spill, old);
            upper.set(frame, place, 1);
        }
    }
}
