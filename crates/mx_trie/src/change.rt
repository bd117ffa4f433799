//! A change of the maps of all domains.
ghost use Rattle.std.specs.Prelude.{◌≡◌, ◌≢◌, ℕ, ◌+◌, ◌*◌, ◌<◌, ◌≤◌, length, None, Some, IfSome, IfNone};
ghost use Rattle.mx_words.specs.Changes.{changed_map};
ghost use Rattle.mx_pool.specs.Frames.{free_in};
ghost use Rattle.mx_table.specs.Change.{given};
ghost use Rattle.mx_table.specs.Tables.{most_words, most_modules};
ghost use Rattle.mx_trie.specs.Standing.{map_at, IsTables};

use crate::domain::change_domain;
use crate::laying::Laying;
use crate::{LeafForm, Roots};
use mx_pool::Pool;
use mx_table::Change;

/// What a change gives a domain, counted from 0, if anything.
pub(crate) fn laying_of(words: u32, row: u32, change: &Change) -> Option<Laying>
    requires row { row < most_modules }
    requires some { 0 < change.now.count }
    requires inside { change.now.first + change.now.count ≤ words }
    requires few { words ≤ most_words }
    ensures none { IfNone result (given change.now (row + 1) ≡ None) }
    ensures some { IfSome result (λ l. given change.now (row + 1) ≡ Some l.perm) }
    ensures words { IfSome result (λ l. l.words ≡ words) }
    ensures first { IfSome result (λ l. l.first ≡ change.now.first) }
    ensures end { IfSome result (λ l. l.end ≡ change.now.first + change.now.count) }
{
    let perm = change.perms[row as usize + 1]?;
    Some(Laying {
        words,
        first: change.first,
        end: change.first + change.count,
        perm,
    })
}

/// Makes a change of one domain's map.
fn change_one<L: LeafForm>(
    upper: &mut Pool<1024>,
    leaf: &mut Pool<64>,
    spill: &mut Pool<1>,
    roots: &Roots,
    words: u32,
    row: u32,
    change: &Change,
)
    requires tables { IsTables L.kind words upper.old leaf.old spill.old roots.now }
    requires few { length roots.now ≤ most_modules }
    requires row { row < length roots.now }
    requires some { 0 < change.now.count }
    requires inside { change.now.first + change.now.count ≤ words }
    requires upper_room { 2 ≤ free_in upper.old }
    requires leaf_room { 2 ≤ free_in leaf.old }
    requires spill_room { 2 ≤ free_in spill.old }
    ensures tables { IsTables L.kind words upper.new leaf.new spill.new roots.now }
    ensures changed { map_at L.kind words upper.new leaf.new spill.new roots.now row
        ≡ changed_map change.now.first change.now.count (given change.now (row + 1))
        (map_at L.kind words upper.old leaf.old spill.old roots.now row) }
    ensures same { (d : ℕ) → d < length roots.now → d ≢ row →
        map_at L.kind words upper.new leaf.new spill.new roots.now d
        ≡ map_at L.kind words upper.old leaf.old spill.old roots.now d }
    ensures upper_free { free_in upper.old ≤ free_in upper.new + 2 }
    ensures leaf_free { free_in leaf.old ≤ free_in leaf.new + 2 }
    ensures spill_free { free_in spill.old ≤ free_in spill.new + 2 }
    ensures upper_total { length upper.new ≡ length upper.old }
    ensures leaf_total { length leaf.new ≡ length leaf.old }
    ensures spill_total { length spill.new ≡ length spill.old }
{
    if let Some(lay) = laying_of(words, row, change) {
        change_domain::<L>(upper, leaf, spill, roots.at(row), &lay);
    }
}

/// Makes a lawful change of all domains' maps.
pub(crate) fn change_all<L: LeafForm>(
    upper: &mut Pool<1024>,
    leaf: &mut Pool<64>,
    spill: &mut Pool<1>,
    roots: &Roots,
    words: u32,
    change: &Change,
)
    requires tables { IsTables L.kind words upper.old leaf.old spill.old roots.now }
    requires few { length roots.now ≤ most_modules }
    requires some { 0 < change.now.count }
    requires inside { change.now.first + change.now.count ≤ words }
    requires upper_room { 2 * length roots.now ≤ free_in upper.old }
    requires leaf_room { 2 * length roots.now ≤ free_in leaf.old }
    requires spill_room { 2 * length roots.now ≤ free_in spill.old }
    ensures tables { IsTables L.kind words upper.new leaf.new spill.new roots.now }
    ensures changed { (d : ℕ) → d < length roots.now →
        map_at L.kind words upper.new leaf.new spill.new roots.now d
        ≡ changed_map change.now.first change.now.count (given change.now (d + 1))
        (map_at L.kind words upper.old leaf.old spill.old roots.now d) }
    ensures upper_total { length upper.new ≡ length upper.old }
    ensures leaf_total { length leaf.new ≡ length leaf.old }
    ensures spill_total { length spill.new ≡ length spill.old }
{
    for row in 0..roots.count() {
        change_one::<L>(upper, leaf, spill, roots, words, row, change);
    }
}
