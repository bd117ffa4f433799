//! The call of the program on words, a store and sinks.

use mx_io::{Bytes, Sink, Store};
use mx_run::{Status, Words, mondrix};
use std::alloc::Global;
use std::test::Fail;

/// The program's answer to these words; the dump gets nothing.
pub fn call<S: Store, C: Sink, R: Sink>(
    alloc: Global,
    words: &[&str],
    store: &mut S,
    console: &mut C,
    report: &mut R,
) -> Result<Status, Fail> {
    let mut list = Words::new(alloc);
    for word in words {
        list.push(word)?;
    }
    let mut dump = Bytes::new(alloc, 8)?;
    let status = mondrix(alloc, &list, store, console, report, &mut dump);
    if dump.as_slice().is_empty() {
        Ok(status)
    } else {
        Err("the dump got bytes")?
    }
}

/// The program's answer to these words; the console and the dump get nothing.
pub fn answer<S: Store, R: Sink>(
    alloc: Global,
    words: &[&str],
    store: &mut S,
    report: &mut R,
) -> Result<Status, Fail> {
    let mut console = Bytes::new(alloc, 8)?;
    let status = call(alloc, words, store, &mut console, report)?;
    if console.as_slice().is_empty() {
        Ok(status)
    } else {
        Err("the console got bytes")?
    }
}
