//! The rows of the permission tables at boot.

ghost use Rattle.std.specs.Prelude.{◌≡◌, ◌≤◌, ◌++◌, None, [], ◌∷◌, map, IfOk, IfSome, OnOk};
ghost use Rattle.std.specs.List.{AllByRecursion};
ghost use Rattle.mx_table.specs.Tables.{IsRow, most_words, row_map};
ghost use Rattle.mx_words.specs.Newest.{map as map_of};
ghost use Rattle.mx_words.specs.Limits.{most_harts, most_stack_words};
ghost use Rattle.mx_boot.specs.Boot.{grant, grants_of};
ghost use Rattle.mx_boot.specs.Faults.{first_fault, ram_words};
ghost use Rattle.mx_boot.specs.Joined.{boot_maps};
ghost use Rattle.mx_boot.specs.Placed.{ArePlaced, granted_areas, nearer, next_area};
ghost use Rattle.mx_boot.specs.Seen.{seen};

use crate::area::Area;
use crate::areas::{add_input, add_pieces, add_stack};
use crate::entries::word_at;
use crate::home::{Home, home_at};
use crate::images::Images;
use crate::layout::ram_words;
use mx_manifest::{Plan, plan_is_in_range};
use mx_words::{NoMemory, Span, Spans};
use std::alloc::Global;

/// The areas on which a module has rights.
fn granted_areas(alloc: Global, home: Home, harts: u32) -> Result<Vec<Area>, NoMemory>
    requires few { IfSome (seen home).plan.stack_words (λ words. words ≤ most_stack_words) }
    requires harts { harts ≤ most_harts }
    ensures { IfOk result (λ areas. areas.items ≡ granted_areas harts (seen home.entry)) }
{
    let mut areas = Vec::new(alloc);
    add_pieces(&mut areas, home)?;
    add_stack(&mut areas, home, harts)?;
    add_input(&mut areas, home)?;
    Ok(areas)
}

/// Of the area found so far and another one, that which begins first at a word or after it.
fn nearer(word: u32, found: Option<Area>, area: Area) -> Option<Area>
    ensures { result ≡ nearer word found area }
{
    let first = word_at(area.address);
    if first < word {
        return found;
    }
    match found {
        Some(other) if word_at(other.address) <= first => found,
        _ => Some(area),
    }
}

/// Of the areas that begin at a word or after it, the one that begins first.
fn next_area(areas: &[Area], word: u32) -> Option<Area>
    ensures { result ≡ next_area word areas.now }
{
    let mut found = None;
    for area in areas {
        found = nearer(word, found, *area);
    }
    found
}

/// The spans of areas that lie apart in a RAM of so many words, by their addresses.
fn row(alloc: Global, areas: &[Area], words: u32) -> Result<Spans, NoMemory>
    requires placed { ArePlaced words areas.now }
    requires few { words ≤ most_words }
    ensures row { IfOk result (IsRow words) }
    ensures map { IfOk result (λ row. row_map words row ≡ map_of (map grant areas.now) words) }
{
    let mut row = Spans::new(alloc);
    let mut end = 0;
    'areas: while let Some(area) = next_area(areas, end) {
        let first = word_at(area.address);
        row.push(Span {
            first,
            count: area.count,
            perm: area.perm,
        })?;
        end = first + area.count;
    }
    Ok(row)
}

/// The row of a module.
fn row_of(alloc: Global, home: Home, harts: u32, words: u32) -> Result<Spans, NoMemory>
    requires few { IfSome (seen home).plan.stack_words (λ words. words ≤ most_stack_words) }
    requires harts { harts ≤ most_harts }
    requires placed { ArePlaced words (granted_areas harts (seen home)) }
    requires size { words ≤ most_words }
    ensures row { IfOk result (IsRow words) }
    ensures map { IfOk result
        (λ row. row_map words row ≡ map_of (grants_of harts (seen home.entry)) words) }
{
    let areas = granted_areas(alloc, home, harts)?;
    row(alloc, areas.as_slice(), words)
}

/// Adds a row.
fn add(rows: &mut Vec<Spans>, row: Spans) -> Result<(), NoMemory>
    ensures { OnOk result (rows.new.items ≡ rows.old.items ++ row ∷ []) }
{
    rows.push(row)?;
    Ok(())
}

/// The rows of all modules, of a plan without a fault.
pub(crate) fn rows(alloc: Global, plan: &Plan, images: &Images) -> Result<Vec<Spans>, NoMemory>
    requires { first_fault plan.now images.now ≡ None }
    ensures rows { IfOk result (λ rows. AllByRecursion (IsRow (ram_words plan.now)) rows.items) }
    ensures maps { IfOk result (λ rows. map (row_map (ram_words plan.now)) rows.items
        ≡ boot_maps plan.now images.now) }
{
    plan_is_in_range(plan);
    let words = ram_words(plan);
    let mut all = Vec::new(alloc);
    'modules: for i in 0..plan.modules() {
        let row = row_of(alloc, home_at(plan, images, i), plan.harts(), words)?;
        add(&mut all, row)?;
    }
    Ok(all)
}
