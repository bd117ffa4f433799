//! The images of a boot, and the memory.

ghost use Rattle.std.specs.Prelude.{◌≡◌, ◌<◌, ◌≤◌, ◌-◌, ◌^◌, [], drop, flat_map, length, option_map, slice_index_or};
ghost use Rattle.std.specs.List.{range_with_len};
ghost use Rattle.mx_words.specs.Ranges.{most_words};
ghost use Rattle.mx_elf.specs.Image.{image_of};
ghost use Rattle.mx_debug_texts.specs.Documents.{file_at, file_text, known_by, libraries_text, library_at};
ghost use Rattle.mx_debug_texts.specs.Documents.{library_named, library_text, lowest_from, lowest_from, lowest_in};
ghost use Rattle.mx_debug_texts.specs.Documents.{lowest_of, memory_text, file_named};
ghost use Rattle.mx_debug_texts.specs.Window.{further};

use crate::named::{Named, file_at, first_domain};
use crate::window::{Piece, Window};
use mx_elf::{Segs, read_image};
use mx_manifest::Plan;
use mx_words::Blob;

/// Puts the name of the first hart's image, or nothing where its module has none.
pub(crate) fn put_file(window: &mut Window, plan: &Plan)
    ensures { window.new ≡ further window.old (file_text plan.now) }
{
    let name = file_at(plan, first_domain(plan).saturating_sub(1));
    window.put(text_or_none(name).as_bytes());
}

fn text_or_none<'a>(name: Option<&'a str>) -> &'a str
    ensures { result.now ≡ file_named (option_map (λ name. name.now) name.entry) }
{
    match name {
        Some(name) => name,
        None => "",
    }
}

/// Puts the other images, each with its lowest address.
pub(crate) fn put_libraries(window: &mut Window, named: &Named<'_>)
    ensures { window.new ≡ further window.old (libraries_text (known_by named.now)) }
{
    window.put(b"<library-list>");
    put_each(window, named);
    window.put(b"</library-list>");
}

fn put_each(window: &mut Window, named: &Named<'_>)
    ensures { window.new ≡ further window.old
        (flat_map (library_text (known_by named.now)) (range_with_len 0 (length named.now.plan.now.modules))) }
{
    for i in 0..named.plan.modules() {
        put_library(window, named, i);
    }
}

// Puts the library of the module at a place, unless it is the first hart's.
fn put_library(window: &mut Window, named: &Named<'_>, i: u32)
    requires { i < 2 ^ 32 - 1 }
    ensures { window.new ≡ further window.old (library_text (known_by named.now) i) }
{
    if i + 1 != first_domain(named.plan) {
        put_named(window, file_at(named.plan, i), image_at(named.images, i));
    }
}

// The image at a place, or no bytes.
fn image_at(images: &[Blob], i: u32) -> &[u8]
    ensures { result.now ≡ slice_index_or images.now i [] }
{
    match images.get(i as usize) {
        Some(image) => image.as_slice(),
        None => b"",
    }
}

fn put_named(window: &mut Window, name: Option<&str>, image: &[u8])
    ensures { window.new ≡ further window.old
        (library_named (option_map (λ name. name.now) name.entry) (lowest_in (image_of image.now))) }
{
    if let Some(name) = name {
        put_one(window, name, lowest_in(image));
    }
}

fn put_one(window: &mut Window, name: &str, lowest: u32)
    ensures { window.new ≡ further window.old (library_at name.now lowest) }
{
    window.put_pieces(&[
        Piece::Text("<library name=\""),
        Piece::Xml(name),
        Piece::Text("\"><segment address=\"0x"),
        Piece::Short(lowest),
        Piece::Text("\"/></library>"),
    ]);
}

// The lowest address of an image's segments, or 0 where there is none.
fn lowest_in(image: &[u8]) -> u32
    ensures { result ≡ lowest_in (image_of image.now) }
{
    match read_image(image) {
        Ok(image) => lowest_of(&image.segments),
        Err(_) => 0,
    }
}

fn lowest_of(segments: &Segs) -> u32
    ensures { result ≡ lowest_of segments.now }
{
    if segments.len() == 0 {
        0
    } else {
        lowest_from(segments.get(0).address, segments, 1)
    }
}

// The lowest of an address and those of the segments from a place on.
fn lowest_from(lowest: u32, segments: &Segs, i: u32) -> u32
    requires { i ≤ length segments.now }
    ensures { result ≡ lowest_from lowest (drop i segments.now) }
{
    if i < segments.len() {
        lowest_from(lowest.min(segments.get(i).address), segments, i + 1)
    } else {
        lowest
    }
}

/// Puts the regions of memory: one, RAM of so many words.
pub(crate) fn put_memory(window: &mut Window, words: u32)
    requires { words ≤ most_words }
    ensures { window.new ≡ further window.old (memory_text words) }
{
    window.put_pieces(&[
        Piece::Text("<memory-map><memory type=\"ram\" start=\"0x80000000\" length=\"0x"),
        Piece::Short(4 * words),
        Piece::Text("\"/></memory-map>"),
    ]);
}
