//! Lists of spans, of bytes and of a turn's events.
use crate::checks::same;
use mx_model::{Events, Note};
use mx_words::{Blob, NoMemory, Perm, Span, Spans};
use std::alloc::Global;
use std::test::Fail;

/// A span of two words.
const SPAN: Span = Span {
    first: 3,
    count: 2,
    perm: Perm::Read,
};

/// What a list of spans and one of bytes answer when the span and the byte 7 are pushed, how long they are then, and
/// whether the bytes are just 7.
fn pushed(alloc: Global) -> ([Result<(), NoMemory>; 2], [u32; 2], bool) {
    let mut spans = Spans::new(alloc);
    let mut blob = Blob::new(alloc);
    let answers = [spans.push(SPAN), blob.push(7)];
    (
        answers,
        [spans.len(), blob.len()],
        blob.as_slice() == [7].as_slice(),
    )
}

#[test]
fn lists_hold_what_was_pushed(rt: HostRuntime) -> Result<(), Fail> {
    let (answers, lengths, is_seven) = pushed(rt.alloc());
    assert_eq!(rt; answers, [Ok(()), Ok(())]);
    assert_eq!(rt; lengths, [1, 1]);
    assert!(rt; is_seven);
    Ok(())
}

/// How many bytes a list with memory for two holds at first, what it answers when two are appended, and whether it is
/// just these then.
fn filled(alloc: Global) -> Result<(u32, Result<(), NoMemory>, bool), NoMemory> {
    let mut blob = Blob::with_capacity(alloc, 2)?;
    let length = blob.len();
    let answer = blob.extend_from_slice(b"ab");
    Ok((length, answer, blob.as_slice() == b"ab".as_slice()))
}

#[test]
fn a_list_with_memory_is_empty_until_it_is_filled(rt: HostRuntime) {
    same(&rt, "two bytes", filled(rt.alloc()), Ok((0, Ok(()), true)));
}

/// An exit with code 5.
const EXIT: Note = Note::Exit {
    step: 3,
    hart: 0,
    domain: 1,
    code: 5,
};

/// How many bytes events hold, and their note: at first, with a byte and a note, and when they are cleared. Then the
/// byte.
fn told() -> ([(u32, Option<Note>); 3], u8) {
    let mut events = Events::new();
    let empty = (events.len(), events.note());
    events.push(104);
    events.set_note(EXIT);
    let filled = (events.len(), events.note());
    let byte = events.byte(0);
    events.clear();
    ([empty, filled, (events.len(), events.note())], byte)
}

#[test]
fn events_hold_bytes_and_a_note(rt: HostRuntime) {
    let (held, byte) = told();
    assert_eq!(rt; held, [(0, None), (1, Some(EXIT)), (0, None)]);
    assert_eq!(rt; byte, 104);
}
