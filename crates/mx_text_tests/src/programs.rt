//! Images that are written of programs, and what the loader reads of them.
ghost use Rattle.std.specs.Prelude.{◌≡◌, ◌≤◌, length, IfOk, OnOk};
ghost use Rattle.mx_image.specs.Lawful.{IsSized};
ghost use Rattle.mx_image.specs.Program.{no_program};

use crate::checks::same;
use crate::images::entry_and_segments;
use mx_elf::{Seg, read_image, symbol};
use mx_image::{ProgramBuilder, Segment, write};
use mx_words::{Blob, NoMemory};
use std::alloc::Global;
use std::process::Abort;
use std::test::Fail;

// The image of `.text 0x80000000`, `start: jal x0, start`, `.text 0x80000800`, `.data 0x80001000` and `k: .byte 1`,
// one per line, byte by byte from the format's rule. `readelf -hlSs` lists its entry, its two segments at 116 and 120,
// its sections at 124 and 172, and its two symbols.
const TWO_SEGMENTS: &[u8] = b"\
    \x7f\x45\x4c\x46\x01\x01\x01\x00\x00\x00\x00\x00\x00\x00\x00\x00\
    \x02\x00\xf3\x00\x01\x00\x00\x00\x00\x00\x00\x80\x34\x00\x00\x00\
    \xb8\x00\x00\x00\x00\x00\x00\x00\x34\x00\x20\x00\x02\x00\x28\x00\
    \x03\x00\x02\x00\
    \x01\x00\x00\x00\x74\x00\x00\x00\x00\x00\x00\x80\x00\x00\x00\x80\
    \x04\x00\x00\x00\x04\x00\x00\x00\x05\x00\x00\x00\x04\x00\x00\x00\
    \x01\x00\x00\x00\x78\x00\x00\x00\x00\x10\x00\x80\x00\x10\x00\x80\
    \x01\x00\x00\x00\x01\x00\x00\x00\x06\x00\x00\x00\x04\x00\x00\x00\
    \x6f\x00\x00\x00\
    \x01\x00\x00\x00\
    \x00\x00\x00\x00\x00\x00\x00\x00\x00\x00\x00\x00\x00\x00\x00\x00\
    \x01\x00\x00\x00\x00\x00\x00\x80\x00\x00\x00\x00\x00\x00\xf1\xff\
    \x07\x00\x00\x00\x00\x10\x00\x80\x00\x00\x00\x00\x00\x00\xf1\xff\
    \x00start\x00k\x00\x00\x00\x00\
    \x00\x00\x00\x00\x00\x00\x00\x00\x00\x00\x00\x00\x00\x00\x00\x00\
    \x00\x00\x00\x00\x00\x00\x00\x00\x00\x00\x00\x00\x00\x00\x00\x00\
    \x00\x00\x00\x00\x00\x00\x00\x00\
    \x00\x00\x00\x00\x02\x00\x00\x00\x00\x00\x00\x00\x00\x00\x00\x00\
    \x7c\x00\x00\x00\x30\x00\x00\x00\x02\x00\x00\x00\x03\x00\x00\x00\
    \x00\x00\x00\x00\x10\x00\x00\x00\
    \x00\x00\x00\x00\x03\x00\x00\x00\x00\x00\x00\x00\x00\x00\x00\x00\
    \xac\x00\x00\x00\x09\x00\x00\x00\x00\x00\x00\x00\x00\x00\x00\x00\
    \x00\x00\x00\x00\x00\x00\x00\x00";

fn segment(alloc: Global, address: u32, flags: u32, content: &[u8]) -> Result<Segment, NoMemory>
    requires { length content.now ≤ 100 }
    ensures { IfOk result (λ s. s.bytes ≡ content.now) }
{
    let mut bytes = Blob::new(alloc);
    bytes.extend_from_slice(content)?;
    Ok(Segment {
        address,
        flags,
        bytes,
    })
}

/// Puts three segments, of which the second is empty, and two labels.
fn put_segments<'a>(alloc: Global, program: &mut ProgramBuilder<'a>) -> Result<(), NoMemory>
    requires { program.old ≡ no_program }
    ensures { OnOk result (IsSized program.new) }
{
    program.set_entry(0x8000_0000);
    program.add_segment(segment(alloc, 0x8000_0000, 5, &[])?)?;
    program.add_bytes(&[0x6F, 0, 0, 0])?;
    program.add_segment(segment(alloc, 0x8000_0800, 5, &[])?)?;
    program.add_segment(segment(alloc, 0x8000_1000, 6, &[])?)?;
    program.add_byte(1)?;
    program.add_label(b"start", 0x8000_0000)?;
    program.add_label(b"k", 0x8000_1000)
}

fn two_segments(alloc: Global) -> Result<Blob, NoMemory> {
    let mut program = ProgramBuilder::new(alloc);
    put_segments(alloc, &mut program)?;
    write(alloc, &program)
}

const CODE: [u8; 12] = [0xB7, 0x08, 0, 0, 0x93, 0x88, 0x18, 0, 0x73, 0, 0, 0];

fn one_segment(alloc: Global) -> Result<Blob, NoMemory> {
    let mut program = ProgramBuilder::new(alloc);
    program.set_entry(0x8000_0000);
    program.add_segment(segment(alloc, 0x8000_0000, 5, &CODE)?)?;
    write(alloc, &program)
}

#[test]
fn writes_two_segments_and_leaves_out_an_empty_one(rt: HostRuntime) -> Result<(), Fail> {
    let image = two_segments(rt.alloc()).ok().ok_or("no memory")?;
    same(&rt, "the image", image.as_slice(), TWO_SEGMENTS);
    Ok(())
}

#[test]
fn the_loader_reads_what_was_written(rt: HostRuntime) {
    let text = Seg {
        offset: 116,
        file: 4,
        address: 0x8000_0000,
        memory: 4,
        flags: 5,
    };
    let data = Seg {
        offset: 120,
        file: 1,
        address: 0x8000_1000,
        memory: 1,
        flags: 6,
    };
    let image = entry_and_segments(TWO_SEGMENTS);
    same(&rt, "the image", image, Some((0x8000_0000, [text, data])));
    let symbols = [
        symbol(TWO_SEGMENTS, "start"),
        symbol(TWO_SEGMENTS, "k"),
        symbol(TWO_SEGMENTS, "star"),
    ];
    same(
        &rt,
        "symbols",
        symbols,
        [Some(0x8000_0000), Some(0x8000_1000), None],
    );
}

/// The entry of an image with one segment, and the segment.
fn entry_and_segment(file: &[u8]) -> Option<(u32, Seg)> {
    match read_image(file) {
        Ok(image) => {
            if image.segments.len() == 1 {
                Some((image.entry, image.segments.get(0)))
            } else {
                None
            }
        }
        Err(_) => None,
    }
}

/// What the loader reads of a file, the file's bytes after one program header are the code, and no symbol has a name.
fn read_one_segment(rt: &impl Abort, file: &[u8]) {
    let text = Seg {
        offset: 84,
        file: 12,
        address: 0x8000_0000,
        memory: 12,
        flags: 5,
    };
    same(
        rt,
        "the image",
        entry_and_segment(file),
        Some((0x8000_0000, text)),
    );
    same(rt, "the code", file.get(84..96), Some(CODE.as_slice()));
    same(rt, "the symbol", symbol(file, "start"), None);
}

// `.text 0x80000000`, `li a7, 1`, `ecall`: `lui a7, 0`, `addi a7, a7, 1` and `ecall`, right after the one program
// header.
#[test]
fn the_loader_reads_a_program_without_labels(rt: HostRuntime) -> Result<(), Fail> {
    let file = one_segment(rt.alloc()).ok().ok_or("no memory")?;
    read_one_segment(&rt, file.as_slice());
    Ok(())
}
