//! What a file is read as.

ghost use Rattle.std.specs.Prelude.{◌≡◌, ◌<◌, ◌≤◌, length, slice_get};

use crate::segment::Seg;
use arrayvec::ArrayVec;
use mx_words::MOST_SEGMENTS;
use std::marker::Model;

/// Why a file is no image: the number of the first fault that applies.
///
/// 1: fewer than 52 bytes. 2: it doesn't begin with 7F 45 4C 46. 3: the class isn't 32 bits, or the data isn't
/// little-endian. 4: it is no executable file. 5: the machine isn't RISC-V. 6: there are program headers, and their
/// size
/// isn't 32 or they pass the file's end. Then for each loaded segment in turn, 7: it is the seventeenth. 8: it has
/// bytes
/// in the file, and these pass the file's end. 9: the file has more bytes of it than memory. 10: its address is no
/// multiple of 4.
#[derive(Clone, Copy, PartialEq, Eq)]
pub struct ImageFault {
    /// The number, 1 to 10.
    pub number: u32,
}

/// A file that can be loaded.
#[derive(Drop)]
pub struct Image {
    /// The address at which the program begins; any address.
    pub entry: u32,
    /// The loaded segments, in the order of their program headers.
    pub segments: Segs,
}

/// A list of at most 16 segments.
#[derive(Drop)]
pub struct Segs {
    items: ArrayVec<Seg, MOST_SEGMENTS>,
}

impl Model for Segs {
    ghost use Rattle.std.specs.Prelude.{List};
    ghost use Rattle.mx_elf.specs.declared.segment.Seg.{Seg};

    ghost Value = { List Seg };

    ghost view = { λ s. s.items.items };
}

impl Segs {
    /// The segments of a vector.
    pub(crate) fn of(items: ArrayVec<Seg, MOST_SEGMENTS>) -> Segs
        ensures { result ≡ items.items }
    {
        Segs { items }
    }

    /// How many there are, 0 to 16.
    pub fn len(&self) -> u32
        ensures value { result ≡ length self.now }
        ensures most { length self.now ≤ 16 }
    {
        self.items.len() as u32
    }

    /// The segment at place `i`, counted from 0 and below `len`.
    pub fn get(&self, i: u32) -> Seg
        requires { i < length self.now }
        ensures { slice_get self.now i ≡ Some result }
    {
        self.items.as_slice()[i as usize]
    }
}
