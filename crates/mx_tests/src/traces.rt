//! Traces: the console's bytes, and a line for each turn.

use crate::examples::{Example, Sinks, files_of};
use crate::failing::{FAULTS, FAULTS_AFTER_A_BYTE};
use crate::one_module::{ALLOC_STORE_FREE, STORE_INTO_CODE, THREE_WORDS};
use crate::two_modules::{
    CALL_INTO_A_DEAD_MODULE, DEAD_DOMAIN_TWO_HARTS, RETURN_TO_THE_SAVED_ADDRESS,
    TWO_HARTS_TRANSFER_UNDER_A_WAITING_GRANT,
};
use mx_io::Files;
use mx_run::{Status, Words, mondrix};
use std::alloc::Global;
use std::process::Abort;
use std::test::Fail;

/// The program's answer to the words `trace first.toml` and these.
fn trace_first(
    alloc: Global,
    words: &[&str],
    files: &mut Files,
    sinks: &mut Sinks,
) -> Result<Status, Fail> {
    let mut list = Words::new(alloc);
    list.push("trace")?;
    list.push("first.toml")?;
    for word in words {
        list.push(word)?;
    }
    Ok(mondrix(
        alloc,
        &list,
        files,
        &mut sinks.console,
        &mut sinks.report,
        &mut sinks.dump,
    ))
}

/// Traces the machine of an example by these words, and compares what the report gets; the console and the dump get
/// nothing.
fn show_trace(
    rt: &impl Abort,
    alloc: Global,
    example: &Example,
    words: &[&str],
    report: &str,
) -> Result<(), Fail> {
    let name = example.name;
    let mut files = files_of(alloc, example)?;
    files.add("order", b"\x01\x00".as_slice())?;
    files.add("turns", b"\0\0\0\0\0\0\0\x01\0\0\0".as_slice())?;
    let mut sinks = Sinks::new(alloc)?;
    let status = trace_first(alloc, words, &mut files, &mut sinks)?;
    assert_eq!(rt; status, Status::Ran, "{name}");
    assert_eq!(rt; sinks.report.as_slice(), report.as_bytes(), "{name}");
    assert!(rt; sinks.console.as_slice().is_empty());
    assert!(rt; sinks.dump.as_slice().is_empty());
    Ok(())
}

const THREE: &str = "turn 1 0 1 0x80000000 ran addi x17, x0, 1\n\
turn 2 0 1 0x80000004 ran addi x10, x0, 5\n\
turn 3 0 1 0x80000008 called ecall\n\
end steps=3 state=halted\n";

const THREE_FROM_TWO: &str = "turn 2 0 1 0x80000004 ran addi x10, x0, 5\n\
turn 3 0 1 0x80000008 called ecall\n\
end steps=3 state=halted\n";

const THREE_FROM_THREE: &str = "turn 3 0 1 0x80000008 called ecall\n\
end steps=3 state=halted\n";

const NO_LINE: &str = "end steps=3 state=halted\n";

const NO_HART: &str = "turn 1 1 - - idle -\n\
turn 2 0 1 0x80000000 ran addi x17, x0, 1\n\
end steps=2 state=schedule\n";

const DENIED_STORE: &str = "turn 1 0 1 0x80000000 ran auipc x1, 0\n\
turn 2 0 1 0x80000004 trapped sw x0, 0(x1)\n\
end steps=2 state=halted\n";

/// A crossing of a gate, at whose word the caller may not fetch, and a fault in the callee.
const GATE: &str = "turn 1 0 1 0x80000000 ran lui x5, 524289\n\
turn 2 0 1 0x80000004 ran jalr x1, 0(x5)\n\
turn 3 0 1 0x80001000 crossed -\n\
turn 4 0 2 0x80001000 trapped ebreak\n\
turn 5 0 1 0x80000008 ran jal x0, -4\n\
end steps=5 state=steps\n";

#[test]
fn a_trace_has_a_line_for_each_turn(rt: HostRuntime) -> Result<(), Fail> {
    let alloc = rt.alloc();
    show_trace(&rt, alloc, &THREE_WORDS, &["4"], THREE)?;
    show_trace(
        &rt,
        alloc,
        &THREE_WORDS,
        &["4", "--schedule", "order"],
        NO_HART,
    )?;
    show_trace(&rt, alloc, &STORE_INTO_CODE, &["5"], DENIED_STORE)?;
    show_trace(&rt, alloc, &FAULTS, &["5"], GATE)
}

/// A crossing and its return.
const RETURN: &str = "turn 1 0 1 0x80000000 ran lui x5, 524289\n\
turn 2 0 1 0x80000004 ran jalr x1, 0(x5)\n\
turn 3 0 1 0x80001000 crossed -\n\
turn 4 0 2 0x80001000 ran addi x2, x0, 7\n\
turn 5 0 2 0x80001004 ran addi x8, x0, 9\n\
turn 6 0 2 0x80001008 returned jalr x0, 0(x1)\n\
turn 7 0 1 0x80000008 trapped ebreak\n\
end steps=7 state=halted\n";

/// A callee that is killed, and a call into it that comes back at once.
const DEAD: &str = "turn 1 0 1 0x80000000 ran lui x5, 524289\n\
turn 2 0 1 0x80000004 ran jalr x1, 0(x5)\n\
turn 3 0 1 0x80001000 crossed -\n\
turn 4 0 2 0x80001000 trapped ebreak\n\
turn 5 0 1 0x80000008 ran jalr x1, 0(x5)\n\
turn 6 0 1 0x80001000 returned -\n\
turn 7 0 1 0x8000000c trapped ebreak\n\
end steps=7 state=halted\n";

/// A hart that finds its domain dead.
const DEAD_HARTS: &str = "turn 1 0 1 0x80000000 trapped ebreak\n\
turn 2 1 1 0x80000000 trapped ebreak\n\
end steps=2 state=halted\n";

/// A call that waits for another hart to hear it, is served, and a halted hart's turn.
const WAITING: &str = "turn 6 0 1 0x80000014 called ecall\n\
turn 7 0 1 0x80000014 waited ecall\n\
turn 8 1 1 0x8000001c ran lui x10, 524289\n\
turn 9 0 1 0x80000014 called ecall\n\
turn 10 0 1 0x80000018 trapped ebreak\n\
turn 11 0 1 0x80000018 idle -\n\
end steps=11 state=schedule\n";

#[test]
fn lines_of_gates_calls_and_dead_domains(rt: HostRuntime) -> Result<(), Fail> {
    let alloc = rt.alloc();
    show_trace(&rt, alloc, &RETURN_TO_THE_SAVED_ADDRESS, &["10"], RETURN)?;
    show_trace(&rt, alloc, &CALL_INTO_A_DEAD_MODULE, &["20"], DEAD)?;
    show_trace(&rt, alloc, &DEAD_DOMAIN_TWO_HARTS, &["10"], DEAD_HARTS)?;
    let grant = &TWO_HARTS_TRANSFER_UNDER_A_WAITING_GRANT;
    let words = ["20", "--schedule", "turns", "--from", "6"];
    show_trace(&rt, alloc, grant, &words, WAITING)
}

/// A word that may be fetched, and is no instruction.
const NO_INSTRUCTION: &str = "version = 1\n\
ram_kib = 64\n\
[[module]]\n\
name = \"m\"\n\
at = 0x80000000\n\
perm = \"rx\"\n\
words = [0x00100893, 0]\n\
[[hart]]\n\
module = \"m\"\n";

#[test]
fn a_word_that_is_no_instruction_has_no_text(rt: HostRuntime) -> Result<(), Fail> {
    let mut files = Files::new(rt.alloc());
    files.add("first.toml", NO_INSTRUCTION.as_bytes())?;
    let mut sinks = Sinks::new(rt.alloc())?;
    let status = trace_first(rt.alloc(), &["20"], &mut files, &mut sinks)?;
    assert_eq!(rt; status, Status::Ran);
    let text = "turn 1 0 1 0x80000000 ran addi x17, x0, 1\n\
turn 2 0 1 0x80000004 trapped -\n\
end steps=2 state=halted\n";
    assert_eq!(rt; sinks.report.as_slice(), text.as_bytes());
    Ok(())
}

#[test]
fn turns_below_a_step_have_no_line(rt: HostRuntime) -> Result<(), Fail> {
    let alloc = rt.alloc();
    show_trace(&rt, alloc, &THREE_WORDS, &["4", "--from", "0"], THREE)?;
    show_trace(&rt, alloc, &THREE_WORDS, &["4", "--from", "01"], THREE)?;
    show_trace(
        &rt,
        alloc,
        &THREE_WORDS,
        &["4", "--from", "2"],
        THREE_FROM_TWO,
    )?;
    show_trace(
        &rt,
        alloc,
        &THREE_WORDS,
        &["4", "--from", "3"],
        THREE_FROM_THREE,
    )?;
    show_trace(&rt, alloc, &THREE_WORDS, &["4", "--from", "4"], NO_LINE)?;
    show_trace(
        &rt,
        alloc,
        &THREE_WORDS,
        &["4", "--from", "9999999999"],
        NO_LINE,
    )?;
    let words = ["4", "--from", "2", "--schedule", "order"];
    let late = "turn 2 0 1 0x80000000 ran addi x17, x0, 1\nend steps=2 state=schedule\n";
    show_trace(&rt, alloc, &THREE_WORDS, &words, late)
}

/// The turns before a console's fault at the end, and no end line.
const AFTER_A_BYTE: &str = "turn 1 0 1 0x80000000 ran lui x10, 524288\n\
turn 2 0 1 0x80000004 ran addi x11, x0, 1\n\
turn 3 0 1 0x80000008 ran addi x17, x0, 2\n\
turn 4 0 1 0x8000000c called ecall\n\
turn 5 0 1 0x80000010 ran lui x5, 524289\n";

#[test]
fn after_the_consoles_fault_a_trace_has_lines_of_turns_alone(rt: HostRuntime) -> Result<(), Fail> {
    let mut files = Files::new(rt.alloc());
    files.add("first.toml", FAULTS_AFTER_A_BYTE.as_bytes())?;
    let mut sinks = Sinks::new(rt.alloc())?;
    sinks.console.fail_at(1);
    let status = trace_first(rt.alloc(), &["5"], &mut files, &mut sinks)?;
    assert_eq!(rt; status, Status::ConsoleFault);
    assert!(rt; sinks.console.as_slice().is_empty());
    assert_eq!(rt; sinks.report.as_slice(), AFTER_A_BYTE.as_bytes());
    Ok(())
}

#[test]
fn a_reports_fault_leaves_whole_pieces_of_a_trace(rt: HostRuntime) -> Result<(), Fail> {
    let mut files = files_of(rt.alloc(), &FAULTS)?;
    let mut sinks = Sinks::new(rt.alloc())?;
    sinks.report.fail_at(2);
    let status = trace_first(rt.alloc(), &["400"], &mut files, &mut sinks)?;
    assert_eq!(rt; status, Status::ReportFault);
    assert_eq!(rt; sinks.report.as_slice().len(), 4096);
    assert!(rt;
        sinks
            .report
            .as_slice()
            .starts_with(b"turn 1 0 1 0x80000000 ran lui x5, 524289\n")
    );
    Ok(())
}

const THREE_DID: &str = "turn 1 0 1 0x80000000 ran addi x17, x0, 1\n\
did x17=0x00000001\n\
turn 2 0 1 0x80000004 ran addi x10, x0, 5\n\
did x10=0x00000005\n\
turn 3 0 1 0x80000008 called ecall\n\
did exit=5 call=1\n\
end steps=3 state=halted\n";

const THREE_DID_FROM_THREE: &str = "turn 3 0 1 0x80000008 called ecall\n\
did exit=5 call=1\n\
end steps=3 state=halted\n";

/// The turn of a hart that isn't there has no second line.
const NO_HART_DID: &str = "turn 1 1 - - idle -\n\
turn 2 0 1 0x80000000 ran addi x17, x0, 1\n\
did x17=0x00000001\n\
end steps=2 state=schedule\n";

/// An alloc, a store into the block, a free, and a store that is denied then.
const BLOCK_DID: &str = "turn 1 0 1 0x80000000 ran addi x10, x0, 2\n\
did x10=0x00000002\n\
turn 2 0 1 0x80000004 ran addi x17, x0, 6\n\
did x17=0x00000006\n\
turn 3 0 1 0x80000008 called ecall\n\
did call=6 x10=0x80001000\n\
turn 4 0 1 0x8000000c ran addi x5, x10, 0\n\
did x5=0x80001000\n\
turn 5 0 1 0x80000010 ran sw x17, 0(x5)\n\
did store=0x80001000/4/0x00000006\n\
turn 6 0 1 0x80000014 ran addi x17, x0, 7\n\
did x17=0x00000007\n\
turn 7 0 1 0x80000018 called ecall\n\
did call=7 x10=0x00000000\n\
turn 8 0 1 0x8000001c trapped sw x17, 0(x5)\n\
did fault=7/0x80001000\n\
end steps=8 state=halted\n";

/// A crossing, and a return that restores what the callee changed.
const RETURN_DID: &str = "turn 1 0 1 0x80000000 ran lui x5, 524289\n\
did x5=0x80001000\n\
turn 2 0 1 0x80000004 ran jalr x1, 0(x5)\n\
did x1=0x80000008\n\
turn 3 0 1 0x80001000 crossed -\n\
did domain=2\n\
turn 4 0 2 0x80001000 ran addi x2, x0, 7\n\
did x2=0x00000007\n\
turn 5 0 2 0x80001004 ran addi x8, x0, 9\n\
did x8=0x00000009\n\
turn 6 0 2 0x80001008 returned jalr x0, 0(x1)\n\
did domain=1 x2=0x00000000 x8=0x00000000\n\
turn 7 0 1 0x80000008 trapped ebreak\n\
did fault=3/0x80000008\n\
end steps=7 state=halted\n";

/// A fault inside a call, and a call that a dead target sends back.
const DEAD_DID: &str = "turn 4 0 2 0x80001000 trapped ebreak\n\
did fault=3/0x80001000 domain=1 x10=0xffffff03\n\
turn 5 0 1 0x80000008 ran jalr x1, 0(x5)\n\
did x1=0x8000000c\n\
turn 6 0 1 0x80001000 returned -\n\
did x10=0xffffff14\n\
turn 7 0 1 0x8000000c trapped ebreak\n\
did fault=3/0x8000000c\n\
end steps=7 state=halted\n";

/// A call that is announced, waits and takes effect; neither a turn that waits nor one of a halted hart has a second
/// line.
const WAITING_DID: &str = "turn 6 0 1 0x80000014 called ecall\n\
did asks=3\n\
turn 7 0 1 0x80000014 waited ecall\n\
turn 8 1 1 0x8000001c ran lui x10, 524289\n\
did x10=0x80001000\n\
turn 9 0 1 0x80000014 called ecall\n\
did call=3 x10=0x00000000\n\
turn 10 0 1 0x80000018 trapped ebreak\n\
did fault=3/0x80000018\n\
turn 11 0 1 0x80000018 idle -\n\
end steps=11 state=schedule\n";

#[test]
fn lines_of_what_turns_did(rt: HostRuntime) -> Result<(), Fail> {
    let alloc = rt.alloc();
    let grant = TWO_HARTS_TRANSFER_UNDER_A_WAITING_GRANT;
    let waiting = ["20", "--schedule", "turns", "--from", "6", "--effects"];
    let cases: [(Example, &[&str], &str); 7] = [
        (THREE_WORDS, &["4", "--effects"], THREE_DID),
        (
            THREE_WORDS,
            &["4", "--effects", "--from", "3"],
            THREE_DID_FROM_THREE,
        ),
        (
            THREE_WORDS,
            &["4", "--schedule", "order", "--effects"],
            NO_HART_DID,
        ),
        (ALLOC_STORE_FREE, &["9", "--effects"], BLOCK_DID),
        (
            RETURN_TO_THE_SAVED_ADDRESS,
            &["10", "--effects"],
            RETURN_DID,
        ),
        (
            CALL_INTO_A_DEAD_MODULE,
            &["20", "--from", "4", "--effects"],
            DEAD_DID,
        ),
        (grant, &waiting, WAITING_DID),
    ];
    for (example, words, report) in &cases {
        show_trace(&rt, alloc, example, words, report)?;
    }
    Ok(())
}

#[test]
fn options_of_a_run_are_none_of_a_trace(rt: HostRuntime) -> Result<(), Fail> {
    for option in ["--dump", "--tables", "--counts"] {
        let mut files = files_of(rt.alloc(), &THREE_WORDS)?;
        let mut sinks = Sinks::new(rt.alloc())?;
        let status = trace_first(rt.alloc(), &["4", option], &mut files, &mut sinks)?;
        assert_eq!(rt; status, Status::Usage, "{option}");
    }
    Ok(())
}
