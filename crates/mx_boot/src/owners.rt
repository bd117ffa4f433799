//! The owners of words at boot.

ghost use Rattle.std.specs.Prelude.{◌≡◌, ◌<◌, ◌≤◌, ◌++◌, None, length, map, IfOk, IfSome, OnOk};
ghost use Rattle.std.specs.List.{AllByRecursion, flat_map};
ghost use Rattle.mx_words.specs.Newest.{owners};
ghost use Rattle.mx_words.specs.Limits.{most_harts, most_stack_words, most_words};
ghost use Rattle.mx_boot.specs.Areas.{homes};
ghost use Rattle.mx_boot.specs.Boot.{give, owned_pieces};
ghost use Rattle.mx_boot.specs.Faults.{first_fault};
ghost use Rattle.mx_boot.specs.Joined.{boot_owners};
ghost use Rattle.mx_boot.specs.Placed.{IsPlaced, owned_areas};
ghost use Rattle.mx_boot.specs.Seen.{seen};

use crate::area::Area;
use crate::areas::{add_heap, add_input, add_pieces, add_stack};
use crate::entries::word_at;
use crate::home::{Home, home_at};
use crate::images::Images;
use crate::layout::ram_words;
use mx_manifest::{Plan, plan_is_in_range};
use mx_owners::Owners;
use mx_words::NoMemory;
use std::alloc::Global;

/// Adds the areas of a module's segments or inline words, unless it is sealed.
fn add_owned_pieces(areas: &mut Vec<Area>, home: Home) -> Result<(), NoMemory>
    ensures { OnOk result (areas.new.items ≡ areas.old.items ++ owned_pieces (seen home.entry)) }
{
    if home.plan.seal {
        return Ok(());
    }
    add_pieces(areas, home)
}

/// Adds the areas that a module owns.
fn add_owned(areas: &mut Vec<Area>, home: Home, harts: u32) -> Result<(), NoMemory>
    requires few { IfSome (seen home).plan.stack_words (λ words. words ≤ most_stack_words) }
    requires harts { harts ≤ most_harts }
    ensures { OnOk result
        (areas.new.items ≡ areas.old.items ++ owned_areas harts (seen home.entry)) }
{
    add_owned_pieces(areas, home)?;
    add_heap(areas, home)?;
    add_stack(areas, home, harts)?;
    add_input(areas, home)
}

/// The areas that modules own, in the order in which they are given.
fn owned(alloc: Global, plan: &Plan, images: &Images) -> Result<Vec<Area>, NoMemory>
    ensures { IfOk result (λ all. all.items
        ≡ flat_map (owned_areas (length plan.now.harts)) (homes plan.now images.now)) }
{
    let mut all = Vec::new(alloc);
    'modules: for i in 0..plan.modules() {
        add_owned(&mut all, home_at(plan, images, i), plan.harts())?;
    }
    Ok(all)
}

/// The owners of a RAM of so many words after its areas are given, each to its module. They are at most 2047, so they
/// make
/// at most 4095 runs of words with one owner.
fn give_all(alloc: Global, areas: &[Area], words: u32) -> Result<Owners, NoMemory>
    requires some { 0 < words }
    requires in_ram { words ≤ most_words }
    requires placed { AllByRecursion (IsPlaced words) areas.now }
    requires few { length areas.now ≤ 2047 }
    ensures { IfOk result (λ all. all ≡ owners (map give areas.now) words) }
{
    let mut owners = Owners::new(alloc, words)?;
    'areas: for area in areas {
        match owners.give(area.domain, word_at(area.address), area.count) {
            Ok(()) => {}
            Err(_) => unreachable!(),
        }
    }
    Ok(owners)
}

/// The owners at boot, of a plan without a fault.
pub(crate) fn owners(alloc: Global, plan: &Plan, images: &Images) -> Result<Owners, NoMemory>
    requires { first_fault plan.now images.now ≡ None }
    ensures { IfOk result (λ all. all ≡ boot_owners plan.now images.now) }
{
    plan_is_in_range(plan);
    let areas = owned(alloc, plan, images)?;
    give_all(alloc, areas.as_slice(), ram_words(plan))
}
