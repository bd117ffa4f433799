//! Sinks that fail while a snapshot is written: what they hold is a prefix of it.

use crate::plans::OWNERS;
use crate::saved::save_after;
use mx_boot_tests::manifests::THREE_WORDS;
use std::alloc::Global;
use std::test::Fail;

/// How many bytes of a snapshot a sink got that has room for so many, and whose call of that number fails, where it
/// then failed and the
/// bytes are those with which the whole snapshot begins.
fn stopped(alloc: Global, text: &str, turns: u32, room: u32, failing: u64) -> Option<usize> {
    let whole = save_after(alloc, text, &[0], turns, 100000, 0)?;
    let part = save_after(alloc, text, &[0], turns, room, failing)?;
    let bytes = part.sink.as_slice();
    if part.whole || !whole.sink.as_slice().starts_with(bytes) {
        return None;
    }
    Some(bytes.len())
}

/// The head of the snapshot of three words is in its first 52 bytes, its one module from 52 to 97, of which the runs
/// begin at 89; RAM
/// begins at 269. All before RAM leaves in one call, and RAM in the next.
#[test]
fn a_sink_that_fails_holds_a_prefix(rt: HostRuntime) -> Result<(), Fail> {
    let cases = [
        (0, 0, 0),
        (10, 0, 10),
        (90, 0, 90),
        (269, 0, 269),
        (1000, 0, 1000),
        (65804, 0, 65804),
        (70000, 1, 0),
        (70000, 2, 269),
    ];
    for (room, failing, held) in cases {
        let got = stopped(rt.alloc(), THREE_WORDS, 1, room, failing);
        assert_eq!(rt; got, Some(held));
    }
    Ok(())
}

/// Before RAM's bytes, 33074 of 98610, there are eight writes of 4096 bytes and one of the rest; the runs of owner
/// begin at 154.
#[test]
fn a_sink_that_fails_inside_the_runs_of_owner_holds_a_prefix(rt: HostRuntime) -> Result<(), Fail> {
    let cases = [
        (4100, 0, 4100),
        (100000, 3, 8192),
        (100000, 9, 32768),
        (100000, 10, 33074),
    ];
    for (room, failing, held) in cases {
        let got = stopped(rt.alloc(), OWNERS, 8190, room, failing);
        assert_eq!(rt; got, Some(held));
    }
    Ok(())
}
