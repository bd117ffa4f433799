//! Each call of the store and of the sinks fails once, of each command and each refusal; also where each call moves one
//! byte alone.

use crate::outside::{Outside, PARTS, Part, WHOLE};
use crate::resumes::{RESUMES, UNRESUMED};
use crate::rows::{OTHERS, REFUSALS, RUNS, Row, length_of, refusal};
use crate::snapshots::{dump_of, pieces_of};
use std::alloc::Global;
use std::process::Abort;
use std::test::Fail;

/// In how many calls so many bytes are moved, by one byte or as a whole.
fn moves(length: usize, most: usize) -> u64 {
    if most == 1 {
        length as u64
    } else if length == 0 {
        0
    } else {
        1
    }
}

/// What the report of a refusal begins with whose last file is over its limit: that file is asked for its size alone.
const OVER: &[u8] = b"refused fault=9 ";

/// How many calls of the store a row makes: of each file the size and, where it is there and within its limit, the
/// bytes.
fn asks(row: &Row, most: usize) -> u64 {
    let read = if row.closing.as_bytes().starts_with(OVER) {
        row.files.len().saturating_sub(1)
    } else {
        row.files.len()
    };
    let mut calls = row.files.len() as u64;
    for name in row.files.iter().take(read) {
        let length = length_of(name).unwrap_or(0);
        calls = calls.saturating_add(moves(length, most));
    }
    calls
}

/// How many calls of a part a row makes. Each text of a row is short enough to leave as one piece, and a dump as one or
/// two.
fn calls(row: &Row, part: Part, most: usize) -> u64 {
    match part {
        Part::Store => asks(row, most),
        Part::Console => moves(row.console.len(), most),
        Part::Report => {
            let length = row.early.len().saturating_add(row.closing.len());
            moves(length, most)
        }
        Part::Dump => {
            let [front, rest] = pieces_of(row.dump);
            moves(front, most).saturating_add(moves(rest, most))
        }
    }
}

/// Whether the bytes are a front of a text, and not the whole.
fn is_front(bytes: &[u8], text: &[u8]) -> bool {
    bytes.len() < text.len() && text.starts_with(bytes)
}

/// Whether status and sinks are those of a row of which a call of this part failed.
fn is_right(
    alloc: Global,
    row: &Row,
    failed: Option<Part>,
    status: u32,
    outside: &Outside,
) -> Result<bool, Fail> {
    let text = format!(in alloc; "{}{}", row.early, row.closing)?;
    let dumped = dump_of(alloc, row.dump)?;
    let console = outside.console.inner.as_slice();
    let report = outside.report.inner.as_slice();
    let dump = outside.dump.inner.as_slice();
    let right = match failed {
        None => {
            status == row.status
                && console == row.console
                && report == text.as_bytes()
                && dump == dumped.as_slice()
        }
        Some(Part::Store) => {
            status == 5
                && console.is_empty()
                && report == b"store fault\n".as_slice()
                && dump.is_empty()
        }
        Some(Part::Console) => {
            status == 7
                && is_front(console, row.console)
                && report == row.early.as_bytes()
                && dump.is_empty()
        }
        Some(Part::Report) => {
            status == 8
                && console == row.console
                && is_front(report, text.as_bytes())
                && dump.is_empty()
        }
        Some(Part::Dump) => {
            status == 9
                && console == row.console
                && report == text.as_bytes()
                && is_front(dump, dumped.as_slice())
        }
    };
    Ok(right)
}

/// Whether no call of a part is to be made, where one of another part may fail. The report gets the line of a fault of
/// the store.
fn is_spare(row: &Row, part: Part, failing: Part, most: usize) -> bool {
    calls(row, part, most) == 0 && !(part == Part::Report && failing == Part::Store)
}

/// Runs a row of which the call of a part with that number fails, where so many are made, and compares what came. The
/// parts that
/// aren't called would fail at the first call.
pub fn try_call(
    rt: &impl Abort,
    alloc: Global,
    row: &Row,
    most: usize,
    part: Part,
    call: u64,
) -> Result<Outside, Fail> {
    let mut outside = Outside::new(alloc, most)?;
    for name in row.files {
        outside.add_snapshot(alloc, name)?;
    }
    for other in PARTS {
        if is_spare(row, other, part, most) {
            outside.fail_at(other, 1);
        }
    }
    outside.fail_at(part, call);
    let status = outside.ask(alloc, row.words)?;
    let failed = if call <= calls(row, part, most) {
        Some(part)
    } else {
        None
    };
    let right = is_right(alloc, row, failed, status.number(), &outside)?;
    let words = row.words;
    assert!(rt; right, "{words}: call {call} of {part:?}");
    Ok(outside)
}

/// Each call of a row fails, one in each run; in the last run none does.
pub fn in_turn(rt: &impl Abort, alloc: Global, row: &Row) -> Result<(), Fail> {
    for part in PARTS {
        let count = calls(row, part, WHOLE);
        if count > 0 {
            for call in 1..count.saturating_add(2) {
                try_call(rt, alloc, row, WHOLE, part, call)?;
            }
        }
    }
    Ok(())
}

/// Each call moves one byte. The first one, one in the middle and the last one fail; in the last run none does.
fn in_crumbs(rt: &impl Abort, alloc: Global, row: &Row) -> Result<(), Fail> {
    for part in PARTS {
        let count = calls(row, part, 1);
        if count > 0 {
            for call in [1, count / 2 + 1, count, count.saturating_add(1)] {
                let outside = try_call(rt, alloc, row, 1, part, call)?;
                let before = call.saturating_sub(1);
                let whole = part == Part::Store || outside.written(part) as u64 == before;
                let words = row.words;
                assert!(rt; whole, "{words}: {before} bytes of {part:?}");
            }
        }
    }
    Ok(())
}

#[test]
fn each_call_of_a_run_fails_in_turn(rt: HostRuntime) -> Result<(), Fail> {
    for row in &RUNS {
        in_turn(&rt, rt.alloc(), row)?;
    }
    Ok(())
}

#[test]
fn each_call_of_another_command_fails_in_turn(rt: HostRuntime) -> Result<(), Fail> {
    for row in &OTHERS {
        in_turn(&rt, rt.alloc(), row)?;
    }
    Ok(())
}

#[test]
fn each_call_of_a_run_that_goes_on_fails_in_turn(rt: HostRuntime) -> Result<(), Fail> {
    for row in &RESUMES {
        in_turn(&rt, rt.alloc(), row)?;
    }
    Ok(())
}

#[test]
fn each_call_of_a_refusal_fails_in_turn(rt: HostRuntime) -> Result<(), Fail> {
    for (words, status, files, line) in &REFUSALS {
        let row = refusal(words, *status, files, line);
        in_turn(&rt, rt.alloc(), &row)?;
    }
    Ok(())
}

#[test]
fn each_call_of_a_refused_snapshot_fails_in_turn(rt: HostRuntime) -> Result<(), Fail> {
    for (words, status, files, line) in &UNRESUMED {
        let row = refusal(words, *status, files, line);
        in_turn(&rt, rt.alloc(), &row)?;
    }
    Ok(())
}

#[test]
fn runs_whose_calls_move_one_byte_are_the_same(rt: HostRuntime) -> Result<(), Fail> {
    for row in &RUNS {
        in_crumbs(&rt, rt.alloc(), row)?;
    }
    Ok(())
}

#[test]
fn other_commands_whose_calls_move_one_byte_are_the_same(rt: HostRuntime) -> Result<(), Fail> {
    for row in &OTHERS {
        in_crumbs(&rt, rt.alloc(), row)?;
    }
    Ok(())
}

#[test]
fn runs_that_go_on_whose_calls_move_one_byte_are_the_same(rt: HostRuntime) -> Result<(), Fail> {
    for row in &RESUMES {
        in_crumbs(&rt, rt.alloc(), row)?;
    }
    Ok(())
}

#[test]
fn refusals_whose_calls_move_one_byte_are_the_same(rt: HostRuntime) -> Result<(), Fail> {
    for (words, status, files, line) in &REFUSALS {
        let row = refusal(words, *status, files, line);
        in_crumbs(&rt, rt.alloc(), &row)?;
    }
    Ok(())
}

#[test]
fn refused_snapshots_whose_calls_move_one_byte_are_the_same(rt: HostRuntime) -> Result<(), Fail> {
    for (words, status, files, line) in &UNRESUMED {
        let row = refusal(words, *status, files, line);
        in_crumbs(&rt, rt.alloc(), &row)?;
    }
    Ok(())
}
