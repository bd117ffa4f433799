//! Sources that are assembled, and the first fault of each.
use crate::checks::same;
use mx_asm::{AsmRefused, assemble};
use mx_elf::{read_image, symbol};
use mx_words::Blob;
use std::alloc::{AllocError, Global};
use std::test::Fail;

mod statements;

use statements::STATEMENTS;

/// The longest source.
const MOST: usize = 0x10_0000;

/// The image of a source.
fn image_of(alloc: Global, source: &str) -> Option<Blob> {
    if source.len() > MOST {
        return None;
    }
    assemble(alloc, source).ok()
}

/// The line and the number of a source's fault, (0, 0) where it has an image.
fn fault_of(alloc: Global, source: &str) -> (u32, u32) {
    if source.len() > MOST {
        return (0, 11);
    }
    match assemble(alloc, source) {
        Ok(_) => (0, 0),
        Err(AsmRefused::Fault { line, number }) => (line, number),
        Err(AsmRefused::NoMemory) => (0, 12),
    }
}

/// The byte at a place, 0 past the end.
fn byte_at(bytes: &[u8], at: usize) -> u8 {
    match bytes.get(at) {
        Some(byte) => *byte,
        None => 0,
    }
}

/// The number of 4 bytes at a place.
fn word_at(bytes: &[u8], at: usize) -> u32 {
    if at > MOST {
        return 0;
    }
    u32::from_le_bytes([
        byte_at(bytes, at),
        byte_at(bytes, at + 1),
        byte_at(bytes, at + 2),
        byte_at(bytes, at + 3),
    ])
}

/// A segment of an image: its address, its flags and the number of its bytes.
type Segment = (u32, u32, u32);

/// The segment with this number in an image, zeros where there is none.
fn segment_at(image: &[u8], place: u32) -> Segment {
    match read_image(image) {
        Ok(read) => {
            if place < read.segments.len() {
                let segment = read.segments.get(place);
                (segment.address, segment.flags, segment.memory)
            } else {
                (0, 0, 0)
            }
        }
        Err(_) => (0, 0, 0),
    }
}

/// Where the bytes of a program's one segment begin in its image.
const FIRST: usize = 84;

/// The first segment of an image, and the first four words of a program's one segment.
fn start_of(image: &[u8]) -> (Segment, [u32; 4]) {
    let words = [
        word_at(image, FIRST),
        word_at(image, FIRST + 4),
        word_at(image, FIRST + 8),
        word_at(image, FIRST + 12),
    ];
    (segment_at(image, 0), words)
}

/// The start of a source's image.
fn start_in(alloc: Global, source: &str) -> Option<(Segment, [u32; 4])> {
    let image = image_of(alloc, source)?;
    Some(start_of(image.as_slice()))
}

/// The segment of a statement, and its word.
fn word_of(alloc: Global, statement: &str) -> Option<(Segment, u32)> {
    let source = [".text 0x80000000\n", statement].concat(alloc).ok()?;
    let (segment, words) = start_in(alloc, source.as_str())?;
    Some((segment, words[0]))
}

#[test]
fn statements_are_those_of_another_assembler(rt: HostRuntime) {
    for (statement, word) in &STATEMENTS {
        let got = word_of(rt.alloc(), statement);
        same(&rt, statement, got, Some(((0x8000_0000, 5, 4), *word)));
    }
}

#[test]
fn sources_give_their_words(rt: HostRuntime) -> Result<(), Fail> {
    for (source, size, words) in &statements::SOURCES {
        let ((_, _, bytes), got) = start_in(rt.alloc(), source).ok_or("refused")?;
        same(&rt, source, bytes, *size);
        same(&rt, source, got.get(..words.len()), Some(*words));
    }
    Ok(())
}

/// The segment with this number in a source's image, the image's entry, and the number of its bytes.
fn segment_in(alloc: Global, source: &str, place: u32) -> Option<(Segment, u32, u32)> {
    let image = image_of(alloc, source)?;
    let bytes = image.as_slice();
    Some((segment_at(bytes, place), word_at(bytes, 24), image.len()))
}

/// What the loader finds in an image: its first two segments, the first word of the one and the first byte of the
/// other,
/// and symbols.
type Found = ([Segment; 2], (u32, u8), [Option<u32>; 3]);

fn found(image: &[u8]) -> Found {
    (
        [segment_at(image, 0), segment_at(image, 1)],
        (word_at(image, 116), byte_at(image, 120)),
        [
            symbol(image, "start"),
            symbol(image, "k"),
            symbol(image, "st"),
        ],
    )
}

fn found_in(alloc: Global, source: &str) -> Option<Found> {
    let image = image_of(alloc, source)?;
    Some(found(image.as_slice()))
}

#[test]
fn labels_and_segments_stand_where_the_loader_finds_them(rt: HostRuntime) -> Result<(), Fail> {
    let source = ".text 0x80000000\nstart: jal x0, start\n.data 0x80001000\nk: .byte 1\n";
    let (segments, starts, symbols) = found_in(rt.alloc(), source).ok_or("refused")?;
    same(
        &rt,
        source,
        segments,
        [(0x8000_0000, 5, 4), (0x8000_1000, 6, 1)],
    );
    same(&rt, source, starts, (0x6F, 1));
    same(
        &rt,
        source,
        symbols,
        [Some(0x8000_0000), Some(0x8000_1000), None],
    );
    // The entry is the first segment's address, though it has no bytes.
    let source = ".data 16\n.text 0x20\nx: ecall\n";
    let (first, entry, _) = segment_in(rt.alloc(), source, 0).ok_or("refused")?;
    same(&rt, source, (first, entry), ((0x20, 5, 4), 16));
    let (_, entry, len) = segment_in(rt.alloc(), "# nothing\n", 0).ok_or("refused")?;
    same(&rt, "nothing", (len, entry), (192, 0));
    Ok(())
}

#[test]
fn the_first_line_and_on_it_the_least_number_is_told(rt: HostRuntime) {
    for (source, line, number) in &statements::FAULTS {
        same(&rt, source, fault_of(rt.alloc(), source), (*line, *number));
    }
}

/// A text so many times, between two others.
fn repeated(
    alloc: Global,
    before: &str,
    item: &str,
    count: usize,
    after: &str,
) -> Result<String, AllocError> {
    let items = item.repeat(alloc, count)?;
    [before, items.as_str(), after].concat(alloc)
}

/// The fault of a source in which a text stands so many times.
fn fault_of_many(
    alloc: Global,
    before: &str,
    item: &str,
    count: usize,
    after: &str,
) -> Result<(u32, u32), AllocError> {
    let source = repeated(alloc, before, item, count, after)?;
    Ok(fault_of(alloc, source.as_str()))
}

/// The fault of a source with a label of so many letters on a line of its own.
fn fault_of_label(alloc: Global, letters: usize) -> Result<(u32, u32), AllocError> {
    fault_of_many(alloc, ".text 0\n", "a", letters, ": ecall\n")
}

/// The fault of a source with so many segments of one instruction each.
fn fault_of_segments(alloc: Global, segments: usize) -> Result<(u32, u32), AllocError> {
    fault_of_many(alloc, "", ".text 0\necall\n", segments, "")
}

#[test]
fn limits_are_met_and_passed(rt: HostRuntime) {
    let alloc = rt.alloc();
    let labels = [fault_of_label(alloc, 64), fault_of_label(alloc, 65)];
    same(&rt, "letters", labels, [Ok((0, 0)), Ok((2, 1))]);
    let segments = [fault_of_segments(alloc, 16), fault_of_segments(alloc, 17)];
    same(&rt, "segments", segments, [Ok((0, 0)), Ok((33, 9))]);
    let whole = segment_in(alloc, ".data 0\n.at 4194304\n", 0).map(|(whole, _, _)| whole);
    same(&rt, "the whole", whole, Some((0, 6, 0x40_0000)));
    let fault = fault_of(alloc, ".data 0\n.at 4194304\n.byte 1\n");
    same(&rt, "one byte more", fault, (3, 10));
}
