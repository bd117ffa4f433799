//! The options of `run` and of `trace`, in every order, and the dump.

use crate::examples::{Example, Sinks, files_of, run_first, show};
use crate::one_module::{ALLOC_STORE_FREE, THREE_WORDS};
use mx_run::{Status, Words, mondrix};
use std::alloc::Global;
use std::test::Fail;

const ALL_OPTIONS: &str = "exit step=3 hart=0 domain=1 code=5\n\
end steps=3 state=halted\n\
hart 0 status=halted domain=1 pc=0x80000008 frames=0\n\
regs 0 00000000 00000000 00000000 00000000 00000000 00000000 00000000 00000000 00000000 00000000 00000005 00000000 00000000 00000000 00000000 00000000 00000000 00000001 00000000 00000000 00000000 00000000 00000000 00000000 00000000 00000000 00000000 00000000 00000000 00000000 00000000 00000000\n\
domain 1 m\n\
map 1 0x80000000 0x8000000c rx\n\
owner 0x80000000 0x8000000c 1\n\
tables kind=packed upper=2/128 leaf=1/4096 spill=0/4096\n\
shown 1 leaf 0x80000000 0x07c00c0e\n\
counts 0 sidecar=2 lookaside=0 walks=1\n";

const BY_A_SCHEDULE: &str = "end steps=3 state=schedule\n\
hart 0 status=running domain=1 pc=0x80000008 frames=0\n\
regs 0 00000000 00000000 00000000 00000000 00000000 00000000 00000000 00000000 00000000 00000000 00000005 00000000 00000000 00000000 00000000 00000000 00000000 00000001 00000000 00000000 00000000 00000000 00000000 00000000 00000000 00000000 00000000 00000000 00000000 00000000 00000000 00000000\n\
domain 1 m\n\
map 1 0x80000000 0x8000000c rx\n\
owner 0x80000000 0x8000000c 1\n\
tables kind=packed upper=2/128 leaf=1/4096 spill=0/4096\n\
shown 1 leaf 0x80000000 0x07c00c0e\n\
counts 0 sidecar=1 lookaside=0 walks=1\n";

/// An option with the word that follows it, if any.
type Choice = &'static [&'static str];

/// The options of `run`, but for `--save`, which has no meaning beside `--dump`. The schedule names no hart first, then
/// hart 0 twice.
const OF_RUN: [Choice; 4] = [
    &["--schedule", "order"],
    &["--dump"],
    &["--tables"],
    &["--counts"],
];

/// The options of `trace`.
const OF_TRACE: [Choice; 3] = [&["--schedule", "order"], &["--from", "2"], &["--effects"]];

/// Puts options into the order of this number: one of those that are left stands at each place in turn. The numbers
/// below n! give each
/// order of n options once.
fn arrange(options: &mut [Choice], number: usize) {
    let mut number = number;
    let count = options.len();
    for place in 0..count {
        let left = count - place;
        options.swap(place, place + number % left);
        number /= left;
    }
}

/// The program's answer to a command over `first.toml` and 10 steps, with these options, and the order of the words.
fn answer_to(
    alloc: Global,
    command: &str,
    options: &[Choice],
    sinks: &mut Sinks,
) -> Result<Status, Fail> {
    let mut files = files_of(alloc, &THREE_WORDS)?;
    files.add("order", b"\x01\x00\x00")?;
    let mut words = Words::new(alloc);
    for word in [command, "first.toml", "10"] {
        words.push(word)?;
    }
    for option in options {
        for word in *option {
            words.push(word)?;
        }
    }
    Ok(mondrix(
        alloc,
        &words,
        &mut files,
        &mut sinks.console,
        &mut sinks.report,
        &mut sinks.dump,
    ))
}

#[test]
fn options_stand_in_any_order(rt: HostRuntime) -> Result<(), Fail> {
    for number in 0..24 {
        let mut options = OF_RUN;
        arrange(&mut options, number);
        let mut sinks = Sinks::new(rt.alloc())?;
        let status = answer_to(rt.alloc(), "run", &options, &mut sinks)?;
        assert_eq!(rt; status, Status::Ran, "order {number}");
        assert_eq!(rt;
            sinks.report.as_slice(),
            BY_A_SCHEDULE.as_bytes(),
            "order {number}"
        );
        assert_eq!(rt; sinks.dump.as_slice().len(), 65536);
    }
    Ok(())
}

const TWO_TURNS: &str = "turn 2 0 1 0x80000000 ran addi x17, x0, 1\n\
did x17=0x00000001\n\
turn 3 0 1 0x80000004 ran addi x10, x0, 5\n\
did x10=0x00000005\n\
end steps=3 state=schedule\n";

#[test]
fn options_of_a_trace_stand_in_any_order(rt: HostRuntime) -> Result<(), Fail> {
    for number in 0..6 {
        let mut options = OF_TRACE;
        arrange(&mut options, number);
        let mut sinks = Sinks::new(rt.alloc())?;
        let status = answer_to(rt.alloc(), "trace", &options, &mut sinks)?;
        assert_eq!(rt; status, Status::Ran, "order {number}");
        assert_eq!(rt;
            sinks.report.as_slice(),
            TWO_TURNS.as_bytes(),
            "order {number}"
        );
    }
    Ok(())
}

#[test]
fn lines_of_tables_and_counts(rt: HostRuntime) -> Result<(), Fail> {
    let example = Example {
        words: &["10", "--tables", "--counts"],
        report: ALL_OPTIONS,
        ..THREE_WORDS
    };
    show(&rt, rt.alloc(), &example)
}

#[test]
fn a_dump_is_the_bytes_of_ram(rt: HostRuntime) -> Result<(), Fail> {
    let mut files = files_of(rt.alloc(), &THREE_WORDS)?;
    let mut sinks = Sinks::new(rt.alloc())?;
    let words = ["10", "--dump"];
    let status = run_first(rt.alloc(), &words, &mut files, &mut sinks)?;
    assert_eq!(rt; status, Status::Ran);
    let bytes = sinks.dump.as_slice();
    assert_eq!(rt; bytes.len(), 65536);
    let words = b"\x93\x08\x10\x00\x13\x05\x50\x00\x73\x00\x00\x00";
    assert_eq!(rt; &bytes[0..12], words.as_slice());
    assert!(rt; bytes[12..].iter().all(|byte| *byte == 0));

    let mut files = files_of(rt.alloc(), &ALLOC_STORE_FREE)?;
    let mut sinks = Sinks::new(rt.alloc())?;
    let words = ["10", "--dump"];
    let status = run_first(rt.alloc(), &words, &mut files, &mut sinks)?;
    assert_eq!(rt; status, Status::Ran);
    let bytes = sinks.dump.as_slice();
    assert_eq!(rt; bytes.len(), 65536);
    assert_eq!(rt; &bytes[4096..4100], b"\x06\x00\x00\x00".as_slice());
    Ok(())
}
