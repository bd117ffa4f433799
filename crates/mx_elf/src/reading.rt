//! Images, and the faults of files that are none.

ghost use Rattle.std.specs.Prelude.{◌≡◌, ◌≢◌, ◌+◌, ◌*◌, ◌<◌, ◌≤◌, length, ℕ, All, IfOk, IfNone};
ghost use Rattle.mx_elf.specs.Field.{places};
ghost use Rattle.mx_elf.specs.Header.{e_phoff, e_phnum};
ghost use Rattle.mx_elf.specs.Image.{first_fault, header_rows, segment_rows, is_loaded, segment_at, segments_at};
ghost use Rattle.mx_elf.specs.Image.{rows_from, unless, image_of, IsSound};

use crate::field::{half_at, word_at};
use crate::image::{Image, ImageFault, Segs};
use crate::layout::{
    CLASS_32, E_ENTRY, E_MACHINE, E_PHENTSIZE, E_PHNUM, E_PHOFF, E_TYPE, EI_CLASS, EI_DATA,
    EM_RISCV, ET_EXEC, HEADER_SIZE, LOWEST_FIRST, MAGIC, P_FILESZ, P_FLAGS, P_MEMSZ, P_OFFSET,
    P_VADDR, PROGRAM_HEADER_SIZE, PT_LOAD,
};
use crate::segment::Seg;
use arrayvec::ArrayVec;
use mx_words::MOST_SEGMENTS;

/// The image that a file is, or the first of its faults (`ImageFault` says which there are). Sums of offsets and sizes
/// don't wrap at 2^32. Program headers of other types, and those of no bytes in memory, are passed over (System V gABI,
/// "ELF Header" and "Program Header").
#[tactic(auto, unfolding(crate::specs::Image::image_of))]
pub fn read_image(bytes: &[u8]) -> Result<Image, ImageFault>
    ensures exact { result ≡ image_of bytes.now }
    ensures sound { IfOk result (λ image. All (IsSound (length bytes.now)) image.segments) }
    ensures most { IfOk result (λ image. length image.segments ≤ 16) }
{
    if let Some(number) = header_fault(bytes) {
        return Err(ImageFault { number });
    }
    let first = word_at(bytes, E_PHOFF) as usize;
    let count = half_at(bytes, E_PHNUM) as usize;
    let segments = read_segments(bytes, first, count)?;
    Ok(Image {
        entry: word_at(bytes, E_ENTRY),
        segments,
    })
}

/// The first of the faults 1 to 6.
fn header_fault(bytes: &[u8]) -> Option<u32>
    ensures exact { result ≡ first_fault (header_rows bytes.now) }
    ensures whole { IfNone result (52 ≤ length bytes.now) }
    ensures inside { IfNone result (0 < e_phnum bytes.now →
        e_phoff bytes.now + 32 * e_phnum bytes.now ≤ length bytes.now) }
{
    if bytes.len() < HEADER_SIZE {
        return Some(1);
    }
    if !bytes.starts_with(&MAGIC) {
        return Some(2);
    }
    if bytes[EI_CLASS] != CLASS_32 || bytes[EI_DATA] != LOWEST_FIRST {
        return Some(3);
    }
    if half_at(bytes, E_TYPE) != ET_EXEC {
        return Some(4);
    }
    if half_at(bytes, E_MACHINE) != EM_RISCV {
        return Some(5);
    }
    let count = half_at(bytes, E_PHNUM) as usize;
    let end = word_at(bytes, E_PHOFF) as usize + PROGRAM_HEADER_SIZE * count;
    let size = half_at(bytes, E_PHENTSIZE) as usize;
    if count != 0 && (size != PROGRAM_HEADER_SIZE || bytes.len() < end) {
        return Some(6);
    }
    None
}

/// The loaded segments among `count` program headers, the first of which stands at `first`, or their first fault.
fn read_segments(bytes: &[u8], first: usize, count: usize) -> Result<Segs, ImageFault>
    requires { 0 < count → first + 32 * count ≤ length bytes.now }
    ensures { let segments = segments_at bytes.now (places first 32 count) in
        result ≡ unless (first_fault (rows_from (length bytes.now) 0 segments)) segments }
{
    let mut items = ArrayVec::new();
    'headers: for k in 0..count {
        let at = first + PROGRAM_HEADER_SIZE * k;
        if is_loaded(bytes, at) {
            let segment = segment_at(bytes, at);
            if let Some(number) = segment_fault(bytes.len(), items.len(), &segment) {
                return Err(ImageFault { number });
            }
            items.push(segment);
        }
    }
    Ok(Segs::of(items))
}

/// Whether the program header at `at` is a loaded segment: of type PT_LOAD, with bytes in memory.
fn is_loaded(bytes: &[u8], at: usize) -> bool
    requires { at + 32 ≤ length bytes.now }
    ensures { result ≡ is_loaded bytes.now at }
{
    word_at(bytes, at) == PT_LOAD && word_at(bytes, at + P_MEMSZ) > 0
}

/// What the program header at `at` says.
fn segment_at(bytes: &[u8], at: usize) -> Seg
    requires { at + 32 ≤ length bytes.now }
    ensures { result ≡ segment_at bytes.now at }
{
    Seg {
        offset: word_at(bytes, at + P_OFFSET),
        file: word_at(bytes, at + P_FILESZ),
        address: word_at(bytes, at + P_VADDR),
        memory: word_at(bytes, at + P_MEMSZ),
        flags: word_at(bytes, at + P_FLAGS),
    }
}

/// The first of the faults 7 to 10 of a segment with `place` loaded ones before it, in a file of `size` bytes.
fn segment_fault(size: usize, place: usize, segment: &Seg) -> Option<u32>
    ensures exact { result ≡ first_fault (segment_rows size (place, segment.now)) }
    ensures room { IfNone result (place ≢ 16) }
{
    if place == MOST_SEGMENTS {
        return Some(7);
    }
    if segment.file != 0 && segment.offset as usize + segment.file as usize > size {
        return Some(8);
    }
    if segment.file > segment.memory {
        return Some(9);
    }
    if segment.address % 4 != 0 {
        return Some(10);
    }
    None
}
