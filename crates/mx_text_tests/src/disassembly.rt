//! The text of each instruction.
use crate::checks::{Text, same, text};
use mx_io::{Bytes, Sink};
use mx_isa::decode;
use mx_trace::disassemble;
use std::alloc::Global;

mod texts;

use texts::TEXTS;

/// Writes the text of a word's instruction, and tells whether there is room for it.
fn put_text<S: Sink>(sink: &mut S, word: u32) -> bool {
    match decode(word) {
        Some(inst) => disassemble(sink, &inst).is_ok(),
        None => false,
    }
}

/// Whether the text of a word's instruction has room in so many bytes, and what stands there then.
fn text_of(alloc: Global, word: u32, room: u64) -> Option<(bool, Text)> {
    let mut sink = Bytes::new(alloc, room).ok()?;
    let is_whole = put_text(&mut sink, word);
    Some((is_whole, text(sink.as_slice())))
}

#[test]
fn texts_are_those_of_another_disassembler(rt: HostRuntime) {
    for (word, line) in &TEXTS {
        let got = text_of(rt.alloc(), *word, 32);
        same(&rt, line, got, Some((true, text(line.as_bytes()))));
    }
}

#[test]
fn a_text_without_room_is_a_prefix(rt: HostRuntime) {
    let got = text_of(rt.alloc(), 0x0011_2023, 9);
    same(&rt, "9 bytes", got, Some((false, text(b"sw x1, 0("))));
}
