//! A change of one domain's map.
ghost use Rattle.std.specs.Prelude.{◌≡◌, ◌≤◌, length};
ghost use Rattle.mx_pool.specs.Frames.{free_in};
ghost use Rattle.mx_trie.specs.Owned.{IsRootTable};
ghost use Rattle.mx_trie.specs.Laying.{IsBeside};
ghost use Rattle.mx_trie.specs.Changed.{IsDomainChanged};
ghost use Rattle.mx_trie.specs.Steps.{AreSomeRegions};
ghost use Rattle.mx_trie.specs.Standing.{IsRead};

use crate::LeafForm;
use crate::beside::beside_of;
use crate::laying::{Beside, Laying};
use crate::region::change_region;
use crate::root_table::{root_entry, set_root_entry};
use crate::scan::has_perm;
use crate::sizes::REGION_WORDS;
use crate::table_view::map_of;
use mx_pool::Pool;

/// Lays a permission over a range of words of the domain with a root table. Where the domain has the permission
/// on the whole range already, the tables are only read.
pub(crate) fn change_domain<L: LeafForm>(
    upper: &mut Pool<1024>,
    leaf: &mut Pool<64>,
    spill: &mut Pool<1>,
    root: u32,
    lay: &Laying,
)
    requires read { IsRead L.kind lay.now.words upper.old leaf.old spill.old root }
    requires upper_room { 2 ≤ free_in upper.old }
    requires leaf_room { 2 ≤ free_in leaf.old }
    requires spill_room { 2 ≤ free_in spill.old }
    ensures { IsDomainChanged L.kind upper.old leaf.old spill.old upper.new leaf.new spill.new
        (λ m. length m ≡ lay.now.words) lay.now root }
{
    let map = map_of::<L>(upper, leaf, spill, root, lay.words);
    if !has_perm(&map, lay.first, lay.end, lay.perm) {
        let beside = beside_of::<L, _>(&map, lay);
        change_regions::<L>(upper, leaf, spill, root, lay, &beside);
    }
}

/// Changes the regions that meet the range or lie near it.
fn change_regions<L: LeafForm>(
    upper: &mut Pool<1024>,
    leaf: &mut Pool<64>,
    spill: &mut Pool<1>,
    root: u32,
    lay: &Laying,
    beside: &Beside,
)
    requires table { IsRootTable L.kind upper.old leaf.old spill.old root }
    requires stands { AreSomeRegions L.kind upper.old leaf.old spill.old lay.now beside.now root }
    requires upper_room { 2 ≤ free_in upper.old }
    requires leaf_room { 2 ≤ free_in leaf.old }
    requires spill_room { 2 ≤ free_in spill.old }
    ensures { IsDomainChanged L.kind upper.old leaf.old spill.old upper.new leaf.new spill.new
        (λ m. IsBeside L.kind m lay.now beside.now) lay.now root }
{
    let from = lay.near_first(L::REACH) / REGION_WORDS;
    let to = lay.near_last(L::REACH) / REGION_WORDS + 1;
    for region in from..to {
        let old = root_entry(upper, root, region);
        let new = change_region::<L>(upper, leaf, spill, region, old, lay, beside);
        set_root_entry(upper, root, region, new);
    }
}
