//! The areas of a plan, and step 6 of the tests: faults 12 and 13 of areas.

ghost use Rattle.std.specs.Prelude.{◌≡◌, ◌++◌, ◌≤◌, [], ◌∷◌, length, map, find, unwrap_or, IfOk, IfSome, OnOk};
ghost use Rattle.mx_words.specs.FirstRow.{first_row};
ghost use Rattle.mx_words.specs.Limits.{most_harts, most_stack_words};
ghost use Rattle.mx_elf.specs.Segment.{permission_of, word_count};
ghost use Rattle.mx_boot.specs.Areas.{areas, areas_of, heaps, inline_area, input_areas, pieces, segment_area, stacks};
ghost use Rattle.mx_boot.specs.Faults.{area_rows, areas_rows, is_in_ram, shares_word};
ghost use Rattle.mx_boot.specs.Seen.{seen};

use crate::area::Area;
use crate::home::{Home, home_at};
use crate::images::Images;
use crate::refused::{at_module, fault};
use mx_elf::{Seg, Segs};
use mx_manifest::{BootFault, Key, Numbers, Plan};
use mx_words::{NoMemory, Perm, RAM_BASE};
use std::alloc::Global;

/// The permission of a segment, by its flags and by `wx`.
#[tactic(auto, unfolding(mx_elf::specs::Segment::permission_of))]
fn segment_perm(flags: u32, wx: Option<Perm>) -> Perm
    ensures { result ≡ unwrap_or (permission_of flags wx) Perm.None }
{
    let writable = flags / 2 % 2 == 1;
    let executable = flags % 2 == 1;
    if writable && executable {
        wx.unwrap_or(Perm::None)
    } else if writable {
        Perm::ReadWrite
    } else if executable {
        Perm::ExecuteRead
    } else if flags / 4 % 2 == 1 {
        Perm::Read
    } else {
        Perm::None
    }
}

/// How many words a segment covers.
fn word_count(segment: Seg) -> u32
    ensures { result ≡ word_count segment }
{
    let end = (u64::from(segment.address) + u64::from(segment.memory) + 3) / 4;
    (end - u64::from(segment.address / 4)) as u32
}

/// The area of a loaded segment.
fn segment_area(home: Home, segment: Seg) -> Area
    ensures { result ≡ segment_area (seen home.entry) segment }
{
    Area {
        domain: home.domain,
        key: Key::Image,
        address: segment.address,
        count: word_count(segment),
        perm: segment_perm(segment.flags, home.plan.wx),
    }
}

/// The area of inline words.
fn inline_area(home: Home) -> Area
    ensures { result ≡ inline_area (seen home.entry) }
{
    Area {
        domain: home.domain,
        key: Key::At,
        address: home.plan.at.unwrap_or(0),
        count: home.plan.words.as_ref().map_or(0, Numbers::len),
        perm: home.plan.perm.unwrap_or(Perm::None),
    }
}

/// Adds an area.
fn add(areas: &mut Vec<Area>, area: Area) -> Result<(), NoMemory>
    ensures { OnOk result (areas.new.items ≡ areas.old.items ++ area ∷ []) }
{
    areas.push(area)?;
    Ok(())
}

/// Adds the areas of loaded segments.
fn add_segments(areas: &mut Vec<Area>, home: Home, segments: &Segs) -> Result<(), NoMemory>
    ensures { OnOk result
        (areas.new.items ≡ areas.old.items ++ map (segment_area (seen home.entry)) segments.now) }
{
    for k in 0..segments.len() {
        add(areas, segment_area(home, segments.get(k)))?;
    }
    Ok(())
}

/// Adds the areas of a module's loaded segments, or that of its inline words.
pub(crate) fn add_pieces(areas: &mut Vec<Area>, home: Home) -> Result<(), NoMemory>
    ensures { OnOk result (areas.new.items ≡ areas.old.items ++ pieces (seen home.entry)) }
{
    if home.plan.image.is_none() {
        return add(areas, inline_area(home));
    }
    match home.file.image() {
        Ok(image) => add_segments(areas, home, &image.segments),
        Err(_) => Ok(()),
    }
}

/// Adds a module's heap area, if it has one.
pub(crate) fn add_heap(areas: &mut Vec<Area>, home: Home) -> Result<(), NoMemory>
    ensures { OnOk result (areas.new.items ≡ areas.old.items ++ heaps (seen home.entry)) }
{
    match home.plan.heap {
        Some(address) => {
            let area = Area {
                domain: home.domain,
                key: Key::Heap,
                address,
                count: home.plan.heap_words.unwrap_or(0),
                perm: Perm::None,
            };
            add(areas, area)
        }
        None => Ok(()),
    }
}

/// Adds a module's stack area with words for each hart, if it has one.
pub(crate) fn add_stack(areas: &mut Vec<Area>, home: Home, harts: u32) -> Result<(), NoMemory>
    requires few { IfSome (seen home).plan.stack_words (λ words. words ≤ most_stack_words) }
    requires harts { harts ≤ most_harts }
    ensures { OnOk result (areas.new.items ≡ areas.old.items ++ stacks harts (seen home.entry)) }
{
    match home.plan.stack {
        Some(address) => {
            let words = home.plan.stack_words.unwrap_or(0);
            let area = Area {
                domain: home.domain,
                key: Key::Stack,
                address,
                count: words * harts,
                perm: Perm::ReadWrite,
            };
            add(areas, area)
        }
        None => Ok(()),
    }
}

/// Adds a module's input area, if it has one.
pub(crate) fn add_input(areas: &mut Vec<Area>, home: Home) -> Result<(), NoMemory>
    ensures { OnOk result (areas.new.items ≡ areas.old.items ++ input_areas (seen home.entry)) }
{
    match &home.plan.input {
        Some(input) => {
            let area = Area {
                domain: home.domain,
                key: Key::InputAt,
                address: input.address,
                count: input.words,
                perm: input.perm,
            };
            add(areas, area)
        }
        None => Ok(()),
    }
}

/// Adds the areas of a module.
fn add_areas(areas: &mut Vec<Area>, home: Home, harts: u32) -> Result<(), NoMemory>
    requires few { IfSome (seen home).plan.stack_words (λ words. words ≤ most_stack_words) }
    requires harts { harts ≤ most_harts }
    ensures { OnOk result (areas.new.items ≡ areas.old.items ++ areas_of harts (seen home.entry)) }
{
    add_pieces(areas, home)?;
    add_heap(areas, home)?;
    add_stack(areas, home, harts)?;
    add_input(areas, home)
}

/// The areas of all modules, in the order in which they are judged.
pub(crate) fn areas(alloc: Global, plan: &Plan, images: &Images) -> Result<Vec<Area>, NoMemory>
    ensures { IfOk result (λ all. all.items ≡ areas plan.now images.now) }
{
    let mut all = Vec::new(alloc);
    'modules: for i in 0..plan.modules() {
        add_areas(&mut all, home_at(plan, images, i), plan.harts())?;
    }
    Ok(all)
}

/// Whether an area lies in a RAM of so many words.
fn is_in_ram(words: u32, area: Area) -> bool
    ensures { result ≡ is_in_ram words area }
{
    let end = u64::from(area.address / 4) + u64::from(area.count);
    RAM_BASE <= area.address && end <= u64::from(RAM_BASE / 4) + u64::from(words)
}

/// Whether two areas share a word.
fn shares_word(a: Area, b: Area) -> bool
    ensures { result ≡ shares_word a b }
{
    let first = a.address / 4;
    let other = b.address / 4;
    if a.count == 0 || b.count == 0 {
        false
    } else if first < other {
        other - first < a.count
    } else {
        first - other < b.count
    }
}

/// The first earlier area that shares a word with an area.
fn shared(earlier: &[Area], area: Area) -> Option<Area>
    ensures { result ≡ find (shares_word area) earlier.now }
{
    for other in earlier {
        if shares_word(area, *other) {
            return Some(*other);
        }
    }
    None
}

/// Fault 12 or 13 of an area after the earlier ones.
fn area_fault(words: u32, earlier: &[Area], area: Area) -> Option<BootFault>
    ensures { result ≡ first_row (area_rows words earlier.now area) }
{
    let place = at_module(area.domain, area.key);
    if !is_in_ram(words, area) {
        return Some(fault(12, place, 0));
    }
    shared(earlier, area).map(|other| fault(13, place, other.domain))
}

/// The first fault 12 or 13 of the areas, in a RAM of so many words.
pub(crate) fn areas_fault(words: u32, areas: &[Area]) -> Option<BootFault>
    ensures { result ≡ first_row (areas_rows words [] areas.now) }
{
    for i in 0..areas.len() {
        if let Some(fault) = area_fault(words, &areas[..i], areas[i]) {
            return Some(fault);
        }
    }
    None
}
