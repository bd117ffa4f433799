//! The command `resume`: runs that are stopped and go on, snapshots that are resumed over themselves, words without
//! meaning, and files over
//! their limits.

use crate::failing::try_call;
use crate::outside::{Outside, Part, WHOLE, words_of};
use crate::resumes::BEGUN;
use crate::rows::{CLOSING, EXIT, MANIFEST, refusal};
use crate::snapshots::snapshot_of;
use crate::stops::{KINDS, Run, STOPS, TABLES_BY_ORDER, Texts};
use mx_io::{Bytes, Loose};
use mx_run::{Status, mondrix};
use std::alloc::Global;
use std::test::Fail;

/// Whether a report begins with the lines of notes, and the end line follows.
fn begins_with(report: &[u8], notes: &[u8]) -> bool {
    match report.strip_prefix(notes) {
        Some(rest) => rest.starts_with(b"end steps="),
        None => false,
    }
}

/// Whether the texts of two calls together are these: both consoles, and the notes of the first report and the second
/// report.
fn are_together(first: &Outside, second: &Outside, texts: &Texts) -> bool {
    let report = texts.report.as_bytes();
    let console = texts.console.as_bytes();
    match (
        report.strip_suffix(second.report.inner.as_slice()),
        console.strip_suffix(second.console.inner.as_slice()),
    ) {
        (Some(notes), Some(shown)) => {
            begins_with(first.report.inner.as_slice(), notes)
                && first.console.inner.as_slice() == shown
        }
        _ => false,
    }
}

/// Whether a run of a manifest by some words and then, by others, one that goes on from its snapshot give these texts
/// together.
fn go_on(
    alloc: Global,
    manifest: &[u8],
    run: &str,
    resume: &str,
    texts: &Texts,
) -> Result<bool, Fail> {
    let mut first = Outside::new(alloc, WHOLE)?;
    first.store.inner.add("whole.toml", manifest)?;
    let stopped = first.ask(alloc, run)?;
    let mut second = Outside::new(alloc, WHOLE)?;
    let saved = first.dump.inner.as_slice();
    second.store.inner.add("memory.bin", saved)?;
    let ended = second.ask(alloc, resume)?;
    Ok(stopped == Status::Ran && ended == Status::Ran && are_together(&first, &second, texts))
}

/// The first number of turns after which a run of a machine, over tables of this kind, is stopped and doesn't go on as
/// the whole one.
fn first_wrong_stop(alloc: Global, run: &Run, kind: &str) -> Result<Option<u32>, Fail> {
    let rest = run.rest;
    let manifest = format!(in alloc; "version = 2\nram_kib = 64\ntables = \"{kind}\"\n{rest}")?;
    for turns in 0..run.turns.saturating_add(1) {
        let more = run.turns.saturating_sub(turns);
        let words = format!(in alloc; "run whole.toml {turns} --save")?;
        let others = format!(in alloc; "resume memory.bin {more}")?;
        let bytes = manifest.as_bytes();
        if !go_on(alloc, bytes, words.as_str(), others.as_str(), &run.texts)? {
            return Ok(Some(turns));
        }
    }
    Ok(None)
}

#[test]
fn a_run_stopped_after_any_turn_goes_on_as_the_whole_one(rt: HostRuntime) -> Result<(), Fail> {
    for run in &STOPS {
        for kind in KINDS {
            let wrong = first_wrong_stop(rt.alloc(), run, kind)?;
            let name = run.name;
            assert_eq!(rt; wrong, None, "{name} {kind}");
        }
    }
    Ok(())
}

/// The schedule is that of the whole run, whose bytes are counted from the boot.
#[test]
fn a_schedule_goes_on_where_it_was(rt: HostRuntime) -> Result<(), Fail> {
    for turns in 0..7_u32 {
        let more = 9 - turns;
        let words = format!(in rt.alloc(); "run whole.toml {turns} --schedule order --save")?;
        let others = format!(in rt.alloc(); "resume memory.bin {more} --schedule order --tables")?;
        let right = go_on(
            rt.alloc(),
            MANIFEST,
            words.as_str(),
            others.as_str(),
            &TABLES_BY_ORDER,
        )?;
        assert!(rt; right, "after {turns}");
    }
    Ok(())
}

/// The last of so many calls, each of one turn more, from the snapshot that the one before wrote, over which its own is
/// written.
fn last_over_itself(alloc: Global, times: u32) -> Result<Outside, Fail> {
    let mut last = Outside::new(alloc, WHOLE)?;
    last.ask(alloc, "run hi.toml 0 --save")?;
    for _ in 0..times {
        let mut next = Outside::new(alloc, WHOLE)?;
        let saved = last.dump.inner.as_slice();
        next.store.inner.add("memory.bin", saved)?;
        next.ask(alloc, "resume memory.bin 1 --save")?;
        last = next;
    }
    Ok(last)
}

#[test]
fn a_snapshot_is_resumed_over_itself(rt: HostRuntime) -> Result<(), Fail> {
    let cases = [
        (1, "", BEGUN, "begun.bin"),
        (7, EXIT, CLOSING, "halted.bin"),
        (8, "", CLOSING, "halted.bin"),
    ];
    for (times, early, closing, name) in cases {
        let last = last_over_itself(rt.alloc(), times)?;
        let report = format!(in rt.alloc(); "{early}{closing}")?;
        let Some(saved) = snapshot_of(rt.alloc(), name)? else {
            return Err("no snapshot")?;
        };
        assert_eq!(rt; last.report.inner.as_slice(), report.as_bytes(), "{times}");
        assert_eq!(rt; last.dump.inner.as_slice(), saved.as_slice(), "{times}");
    }
    // The fifth turn writes to the console.
    let fifth = last_over_itself(rt.alloc(), 5)?;
    assert_eq!(rt; fifth.console.inner.as_slice(), b"hi\n".as_slice());
    Ok(())
}

#[test]
fn words_that_resume_nothing(rt: HostRuntime) -> Result<(), Fail> {
    let cases = [
        "resume",
        "resume begun.bin",
        "resume 9 begun.bin",
        "resume begun.bin 99999999999",
        "resume -begun.bin 9",
        "resume begun.bin 9 9",
        "resume begun.bin 9 --counts",
        "resume begun.bin 9 --from 2",
        "resume begun.bin 9 --effects",
        "resume begun.bin 9 --save --dump",
        "resume begun.bin 9 --dump --tables --save",
        "resume begun.bin 9 --save --save",
        "resume begun.bin 9 --tables --tables",
        "resume begun.bin 9 --schedule",
        "resume begun.bin 9 --schedule order --schedule order",
        "resume begun.bin --save 9",
        "resume begun.bin 9 ",
    ];
    for words in cases {
        let row = refusal(words, 2, &[], "mondrix: these words have no meaning\n");
        try_call(&rt, rt.alloc(), &row, WHOLE, Part::Report, 2)?;
    }
    Ok(())
}

/// Sizes that are told of the snapshot `begun.bin`, which has 65805 bytes, and of `order`, which has 6; the number of
/// the status, and the
/// line. A file over its limit isn't read.
const SIZES: [(u64, u64, u32, &str); 5] = [
    (1073741825, 6, 14, "snapshot fault=1 at=0\n"),
    (1073741825, 16777217, 14, "snapshot fault=1 at=0\n"),
    (
        65806,
        16777217,
        5,
        "short file begun.bin told=65806 got=65805\n",
    ),
    (
        65805,
        16777217,
        3,
        "refused fault=9 at=schedule key=- detail=0\n",
    ),
    (65805, 7, 5, "short file order told=7 got=6\n"),
];

#[test]
fn sizes_that_are_told_wrongly_or_are_over_a_limit(rt: HostRuntime) -> Result<(), Fail> {
    let Some(bytes) = snapshot_of(rt.alloc(), "begun.bin")? else {
        return Err("no snapshot")?;
    };
    let words = words_of(rt.alloc(), "resume begun.bin 9 --save --schedule order")?;
    for (size, order, status, line) in SIZES {
        let mut store = Loose::new(rt.alloc());
        store.add("begun.bin", size, bytes.as_slice())?;
        store.add("order", order, b"\0\x01\0\0\0\0")?;
        let mut console = Bytes::new(rt.alloc(), 8)?;
        let mut report = Bytes::new(rt.alloc(), 100)?;
        let mut dump = Bytes::new(rt.alloc(), 8)?;
        let got = mondrix(
            rt.alloc(),
            &words,
            &mut store,
            &mut console,
            &mut report,
            &mut dump,
        );
        assert_eq!(rt; got.number(), status, "{line}");
        assert_eq!(rt; report.as_slice(), line.as_bytes());
        assert!(rt; console.as_slice().is_empty() && dump.as_slice().is_empty());
    }
    Ok(())
}
