//! The parts of an image, in their order.

ghost use Rattle.std.specs.Prelude.{◌≡◌, ◌+◌, ◌*◌, ◌≤◌, ◌<◌, ◌^◌, ◌++◌, [], length, IfOk, OnOk};
ghost use Rattle.mx_image.specs.Program.{filled};
ghost use Rattle.mx_image.specs.Labels.{label_of, labels_of};
ghost use Rattle.mx_image.specs.Image.{rounded, padded, file_header, program_header, program_headers, contents, symbol};
ghost use Rattle.mx_image.specs.Image.{symbol_table, symbols_from, names, strings, symbol_section, string_section};
ghost use Rattle.mx_image.specs.Image.{section_headers, image_with, image_of};
ghost use Rattle.mx_image.specs.Layout.{layout_of};
ghost use Rattle.mx_image.specs.Lawful.{IsSized};

use crate::layout::{
    EM_RISCV, ET_EXEC, HEADER_SIZE, IDENT, PROGRAM_HEADER_SIZE, PT_LOAD, SECTION_HEADER_SIZE,
    SECTIONS, SHN_ABS, SHT_STRTAB, SHT_SYMTAB, STRINGS, SYMBOL_SIZE,
};
use crate::program::{NamedAddress, ProgramBuilder};
use crate::put::{put_halves, put_words, put_zeros};
use crate::segment::Segment;
use mx_words::{Blob, NoMemory};
use std::alloc::Global;

/// The image of a program: an executable file whose bytes are those that `image_of` says. The program has at most 16
/// segments with bytes, 4194304 bytes in all of them together, and 2^20 labels, whose names have 1 to 64 bytes each.
/// Its
/// only refusal is want of memory.
pub fn write(alloc: Global, program: &ProgramBuilder) -> Result<Blob, NoMemory>
    requires { IsSized program.now }
    ensures { IfOk result (λ image. image ≡ image_of program.now) }
{
    let segments = program.segments.as_slice();
    let labels = program.labels.as_slice();
    let layout = lay_out(segments, labels);
    let mut out = Blob::with_capacity(alloc, layout.size)?;
    put_parts(&mut out, program.entry, segments, labels, &layout)?;
    Ok(out)
}

/// Puts all parts of an image into an empty list.
fn put_parts(
    out: &mut Blob,
    entry: u32,
    segments: &[Segment],
    labels: &[NamedAddress],
    layout: &Layout,
) -> Result<(), NoMemory>
    requires layout { layout.now ≡ layout_of (filled segments.now) (labels_of labels.now) }
    requires empty { out.old ≡ [] }
    requires few { length (filled segments.now) ≤ 16 }
    requires contents { length (contents (filled segments.now)) < 2 ^ 28 }
    requires labels { length labels.now ≤ 2 ^ 20 }
    requires names { length (names (labels_of labels.now)) < 2 ^ 28 }
    ensures { let named = labels_of labels.now in
        OnOk result (out.new ≡ image_with entry (filled segments.now) named) }
{
    put_file_header(out, entry, layout.sections_at, layout.segments)?;
    put_program_headers(out, segments, layout.contents_at)?;
    put_contents(out, segments)?;
    put_symbol_table(out, labels)?;
    put_strings(out, labels, layout.strings_size)?;
    put_sections(out, layout)
}

/// Where the parts of an image stand, in bytes from its start, how many things they hold, and how many bytes it takes.
#[derive(Clone, Copy)]
struct Layout {
    segments: u32,
    contents_at: u32,
    symbols: u32,
    symbols_at: u32,
    strings_size: u32,
    strings_at: u32,
    sections_at: u32,
    size: u32,
}

/// The layout of an image.
fn lay_out(segments: &[Segment], labels: &[NamedAddress]) -> Layout
    requires few { length (filled segments.now) ≤ 16 }
    requires contents { length (contents (filled segments.now)) < 2 ^ 28 }
    requires labels { length labels.now ≤ 2 ^ 20 }
    requires names { length (names (labels_of labels.now)) < 2 ^ 28 }
    ensures { result ≡ layout_of (filled segments.now) (labels_of labels.now) }
{
    let count = filled_count(segments);
    let contents_at = HEADER_SIZE + PROGRAM_HEADER_SIZE * count;
    let symbols = labels.len() as u32 + 1;
    let symbols_at = contents_at + contents_size(segments);
    let strings_size = names_size(labels) + 1;
    let strings_at = symbols_at + SYMBOL_SIZE * symbols;
    let sections_at = strings_at + rounded(strings_size);
    Layout {
        segments: count,
        contents_at,
        symbols,
        symbols_at,
        strings_size,
        strings_at,
        sections_at,
        size: sections_at + SECTION_HEADER_SIZE * SECTIONS as u32,
    }
}

/// The next multiple of 4.
fn rounded(n: u32) -> u32
    requires { n ≤ 2 ^ 31 }
    ensures { result ≡ rounded n }
{
    (n + 3) / 4 * 4
}

/// How many segments have bytes.
fn filled_count(segments: &[Segment]) -> u32
    requires { length (filled segments.now) ≤ 16 }
    ensures { result ≡ length (filled segments.now) }
{
    let mut count = 0;
    'segments: for segment in segments {
        if segment.bytes.len() != 0 {
            count += 1;
        }
    }
    count
}

/// How many bytes the contents of segments take.
fn contents_size(segments: &[Segment]) -> u32
    requires { length (contents (filled segments.now)) < 2 ^ 31 }
    ensures { result ≡ length (contents (filled segments.now)) }
{
    let mut size = 0;
    'segments: for segment in segments {
        size += rounded(segment.bytes.len());
    }
    size
}

/// How many bytes names take, each with a zero byte after it.
fn names_size(labels: &[NamedAddress]) -> u32
    requires { length (names (labels_of labels.now)) < 2 ^ 31 }
    ensures { result ≡ length (names (labels_of labels.now)) }
{
    let mut size = 0;
    'labels: for label in labels {
        size += label.name.len() as u32 + 1;
    }
    size
}

/// Appends the file header.
fn put_file_header(out: &mut Blob, entry: u32, sections_at: u32, count: u32) -> Result<(), NoMemory>
    requires room { length out.old + 52 ≤ 2 ^ 31 }
    requires few { count < 2 ^ 16 }
    ensures { OnOk result (out.new ≡ out.old ++ file_header entry sections_at count) }
{
    let header = HEADER_SIZE as u16;
    let program_header = PROGRAM_HEADER_SIZE as u16;
    let section_header = SECTION_HEADER_SIZE as u16;
    out.extend_from_slice(&IDENT)?;
    put_halves(out, &[ET_EXEC, EM_RISCV])?;
    put_words(out, &[1, entry, HEADER_SIZE, sections_at, 0])?;
    put_halves(
        out,
        &[
            header,
            program_header,
            count as u16,
            section_header,
            SECTIONS,
            STRINGS,
        ],
    )
}

/// Appends the program headers of the segments that have bytes; the first of these bytes stands at `at`.
fn put_program_headers(out: &mut Blob, segments: &[Segment], at: u32) -> Result<(), NoMemory>
    requires room { length out.old + 32 * length (filled segments.now) ≤ 2 ^ 31 }
    requires places { at + length (contents (filled segments.now)) < 2 ^ 31 }
    ensures { OnOk result (out.new ≡ out.old ++ program_headers at (filled segments.now)) }
{
    let mut at = at;
    'segments: for segment in segments {
        if segment.bytes.len() != 0 {
            put_program_header(out, segment, at)?;
            at += rounded(segment.bytes.len());
        }
    }
    Ok(())
}

/// Appends the program header of a segment whose bytes stand at `at`.
fn put_program_header(out: &mut Blob, segment: &Segment, at: u32) -> Result<(), NoMemory>
    requires { length out.old + 32 ≤ 2 ^ 31 }
    ensures { OnOk result (out.new ≡ out.old ++ program_header at segment.now) }
{
    let size = segment.bytes.len();
    let address = segment.address;
    put_words(
        out,
        &[PT_LOAD, at, address, address, size, size, segment.flags, 4],
    )
}

/// Appends the bytes of segments, each followed by zero bytes up to a multiple of 4.
fn put_contents(out: &mut Blob, segments: &[Segment]) -> Result<(), NoMemory>
    requires { length out.old + length (contents (filled segments.now)) ≤ 2 ^ 31 }
    ensures { OnOk result (out.new ≡ out.old ++ contents (filled segments.now)) }
{
    'segments: for segment in segments {
        let size = segment.bytes.len();
        out.extend_from_slice(segment.bytes.as_slice())?;
        put_zeros(out, rounded(size) - size)?;
    }
    Ok(())
}

/// Appends the symbol table: the null symbol and one symbol a label.
fn put_symbol_table(out: &mut Blob, labels: &[NamedAddress]) -> Result<(), NoMemory>
    requires room { length out.old + 16 * (length labels.now + 1) ≤ 2 ^ 31 }
    requires places { length (names (labels_of labels.now)) < 2 ^ 31 }
    ensures { OnOk result (out.new ≡ out.old ++ symbol_table (labels_of labels.now)) }
{
    put_words(out, &[0; 4])?;
    put_symbols(out, labels)
}

/// Appends one symbol a label; the first name stands at place 1 in the strings.
fn put_symbols(out: &mut Blob, labels: &[NamedAddress]) -> Result<(), NoMemory>
    requires room { length out.old + 16 * length labels.now ≤ 2 ^ 31 }
    requires places { length (names (labels_of labels.now)) < 2 ^ 31 }
    ensures { OnOk result (out.new ≡ out.old ++ symbols_from 1 (labels_of labels.now)) }
{
    let mut at = 1;
    'labels: for label in labels {
        put_symbol(out, label, at)?;
        at = at + label.name.len() as u32 + 1;
    }
    Ok(())
}

/// Appends the symbol of a label whose name stands at `at` in the strings.
fn put_symbol(out: &mut Blob, label: &NamedAddress, at: u32) -> Result<(), NoMemory>
    requires { length out.old + 16 ≤ 2 ^ 31 }
    ensures { OnOk result (out.new ≡ out.old ++ symbol at (label_of label.now)) }
{
    put_words(out, &[at, label.address, 0])?;
    out.extend_from_slice(&[0, 0])?;
    put_halves(out, &[SHN_ABS])
}

/// Appends the strings, which have `size` bytes, and zero bytes up to a multiple of 4.
fn put_strings(out: &mut Blob, labels: &[NamedAddress], size: u32) -> Result<(), NoMemory>
    requires size { size ≡ length (strings (labels_of labels.now)) }
    requires small { size < 2 ^ 31 }
    requires room { length out.old + rounded size ≤ 2 ^ 31 }
    ensures { OnOk result (out.new ≡ out.old ++ padded (strings (labels_of labels.now))) }
{
    let zeros = rounded(size) - size;
    out.extend_from_slice(&[0])?;
    put_names(out, labels)?;
    put_zeros(out, zeros)
}

/// Appends names, each with a zero byte after it.
fn put_names(out: &mut Blob, labels: &[NamedAddress]) -> Result<(), NoMemory>
    requires { length out.old + length (names (labels_of labels.now)) ≤ 2 ^ 31 }
    ensures { OnOk result (out.new ≡ out.old ++ names (labels_of labels.now)) }
{
    'labels: for label in labels {
        out.extend_from_slice(label.name)?;
        out.push(0)?;
    }
    Ok(())
}

/// Appends the section headers: the null one, that of the symbols, and that of the strings.
fn put_sections(out: &mut Blob, layout: &Layout) -> Result<(), NoMemory>
    requires room { length out.old + 120 ≤ 2 ^ 31 }
    requires few { layout.now.symbols < 2 ^ 24 }
    ensures { let l = layout.now in
        let headers = section_headers l.symbols_at l.symbols l.strings_at l.strings_size in
        OnOk result (out.new ≡ out.old ++ headers) }
{
    put_words(out, &[0; 10])?;
    put_symbol_section(out, layout.symbols_at, layout.symbols)?;
    put_string_section(out, layout.strings_at, layout.strings_size)
}

/// Appends the section header of `count` symbols, the first of which stands at `at`.
fn put_symbol_section(out: &mut Blob, at: u32, count: u32) -> Result<(), NoMemory>
    requires room { length out.old + 40 ≤ 2 ^ 31 }
    requires few { count < 2 ^ 24 }
    ensures { OnOk result (out.new ≡ out.old ++ symbol_section at count) }
{
    let size = SYMBOL_SIZE * count;
    let linked = STRINGS as u32;
    put_words(
        out,
        &[0, SHT_SYMTAB, 0, 0, at, size, linked, count, 0, SYMBOL_SIZE],
    )
}

/// Appends the section header of strings with `size` bytes, the first of which stands at `at`.
fn put_string_section(out: &mut Blob, at: u32, size: u32) -> Result<(), NoMemory>
    requires { length out.old + 40 ≤ 2 ^ 31 }
    ensures { OnOk result (out.new ≡ out.old ++ string_section at size) }
{
    put_words(out, &[0, SHT_STRTAB, 0, 0, at, size, 0, 0, 0, 0])
}
