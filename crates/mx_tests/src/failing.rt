//! Each call of the store and of the sinks fails once, over the manifest of packets.

ghost use Rattle.std.specs.Prelude.{◌≤◌};

use crate::examples::{Example, Sinks, files_of, run_first};
use crate::packet_runs::{SHORT, SHORT_CONSOLE, packet_files};
use mx_io::Files;
use mx_run::Status;
use std::alloc::Global;
use std::process::Abort;
use std::test::Fail;

const WORDS: [&str; 2] = ["2000", "--dump"];

/// Whether each sink holds a prefix of its text. The dump is empty or RAM's 1048576 bytes.
fn are_prefixes(sinks: &Sinks) -> bool {
    let dumped = sinks.dump.as_slice().len();
    SHORT_CONSOLE
        .as_bytes()
        .starts_with(sinks.console.as_slice())
        && SHORT.as_bytes().starts_with(sinks.report.as_slice())
        && (dumped == 0 || dumped == 1048576)
}

/// How the run ends whose sinks these are.
fn end(
    rt: &impl Abort,
    alloc: Global,
    files: &mut Files,
    sinks: &mut Sinks,
) -> Result<Status, Fail> {
    let status = run_first(alloc, &WORDS, files, sinks)?;
    if status == Status::StoreFault {
        assert!(rt; sinks.console.as_slice().is_empty());
        assert_eq!(rt; sinks.report.as_slice(), b"store fault\n".as_slice());
        assert!(rt; sinks.dump.as_slice().is_empty());
    } else {
        assert!(rt; are_prefixes(sinks));
    }
    // These runs have no line of a fault or an exit, and the closing lines come after the console's whole text.
    if status == Status::ConsoleFault {
        assert!(rt; sinks.report.as_slice().is_empty());
    }
    Ok(status)
}

#[test]
fn each_call_of_the_store_fails(rt: HostRuntime) -> Result<(), Fail> {
    // the size and the bytes of a manifest and of three images
    for call in 1..10u64 {
        let mut files = packet_files(rt.alloc())?;
        files.fail_at(call);
        let mut sinks = Sinks::new(rt.alloc())?;
        let status = end(&rt, rt.alloc(), &mut files, &mut sinks)?;
        let want = if call <= 8 {
            Status::StoreFault
        } else {
            Status::Ran
        };
        assert_eq!(rt; status, want, "call {call} of the store");
    }
    Ok(())
}

#[test]
fn each_write_to_console_and_report_fails(rt: HostRuntime) -> Result<(), Fail> {
    // each text leaves in one write
    for call in 1..3u64 {
        let mut files = packet_files(rt.alloc())?;
        let mut sinks = Sinks::new(rt.alloc())?;
        sinks.console.fail_at(call);
        let status = end(&rt, rt.alloc(), &mut files, &mut sinks)?;
        let want = if call == 1 {
            Status::ConsoleFault
        } else {
            Status::Ran
        };
        assert_eq!(rt; status, want, "write {call} to the console");

        let mut files = packet_files(rt.alloc())?;
        let mut sinks = Sinks::new(rt.alloc())?;
        sinks.report.fail_at(call);
        let status = end(&rt, rt.alloc(), &mut files, &mut sinks)?;
        let want = if call == 1 {
            Status::ReportFault
        } else {
            Status::Ran
        };
        assert_eq!(rt; status, want, "write {call} to the report");
        assert_eq!(rt; sinks.console.as_slice(), SHORT_CONSOLE.as_bytes());
    }
    Ok(())
}

#[test]
fn each_write_to_the_dump_fails(rt: HostRuntime) -> Result<(), Fail> {
    for call in 1..3u64 {
        let mut files = packet_files(rt.alloc())?;
        let mut sinks = Sinks::new(rt.alloc())?;
        sinks.dump.fail_at(call);
        let status = end(&rt, rt.alloc(), &mut files, &mut sinks)?;
        let want = if call == 1 {
            Status::DumpFault
        } else {
            Status::Ran
        };
        assert_eq!(rt; status, want, "write {call} to the dump");
        assert_eq!(rt; sinks.console.as_slice(), SHORT_CONSOLE.as_bytes());
        assert_eq!(rt; sinks.report.as_slice(), SHORT.as_bytes());
    }
    Ok(())
}

/// A module that calls a gate again and again, after which another one faults at once: a fault at each fourth turn. The
/// text is
/// what the report has after the lines of 100 faults.
pub const FAULTS: Example = Example {
    name: "a fault in each call",
    manifest: "version = 1\n\
ram_kib = 64\n\
[[module]]\n\
name = \"a\"\n\
at = 0x80000000\n\
perm = \"rx\"\n\
words = [0x800012B7, 0x000280E7, 0xFFDFF06F]\n\
[[module]]\n\
name = \"b\"\n\
at = 0x80001000\n\
perm = \"rx\"\n\
words = [0x00100073]\n\
gates = [{ entry = 0x80001000, from = [\"a\"] }]\n\
[[hart]]\n\
module = \"a\"\n",
    words: &["401"],
    order: b"",
    console: "",
    report: "end steps=401 state=steps\n\
hart 0 status=running domain=1 pc=0x80000004 frames=0\n\
regs 0 00000000 80000008 00000000 00000000 00000000 80001000 00000000 00000000 00000000 00000000 ffffff03 00000000 00000000 00000000 00000000 00000000 00000000 00000000 00000000 00000000 00000000 00000000 00000000 00000000 00000000 00000000 00000000 00000000 00000000 00000000 00000000 00000000\n\
domain 1 a\n\
map 1 0x80000000 0x8000000c rx\n\
domain 2 b\n\
map 2 0x80001000 0x80001004 rx\n\
owner 0x80000000 0x8000000c 1\n\
owner 0x80001000 0x80001004 2\n",
};

/// A manifest of the same after four turns, which write the lowest byte of the module's first word to the console.
pub const FAULTS_AFTER_A_BYTE: &str = "version = 1\n\
ram_kib = 64\n\
[[module]]\n\
name = \"a\"\n\
at = 0x80000000\n\
perm = \"rx\"\n\
words = [0x80000537, 0x00100593, 0x00200893, 0x00000073, 0x800012B7, 0x000280E7, 0xFFDFF06F]\n\
[[module]]\n\
name = \"b\"\n\
at = 0x80001000\n\
perm = \"rx\"\n\
words = [0x00100073]\n\
gates = [{ entry = 0x80001000, from = [\"a\"] }]\n\
[[hart]]\n\
module = \"a\"\n";

/// The lines of 100 faults, the first of them at the step with four times this number.
fn fault_lines(alloc: Global, first: u32) -> Result<String, Fail>
    requires { first ≤ 2 }
{
    let mut text = String::new(alloc);
    for fault in first..first + 100 {
        let step = 4 * fault;
        let line = format!(in alloc;
            "fault step={step} hart=0 domain=2 pc=0x80001000 cause=3 value=0x80001000\n"
        )?;
        text.push_str(line.as_str())?;
    }
    Ok(text)
}

#[test]
fn a_long_report_leaves_in_pieces(rt: HostRuntime) -> Result<(), Fail> {
    let mut lines = fault_lines(rt.alloc(), 1)?;
    for (call, len) in [(1u64, 0usize), (2, 4096)] {
        let mut files = files_of(rt.alloc(), &FAULTS)?;
        let mut sinks = Sinks::new(rt.alloc())?;
        sinks.report.fail_at(call);
        let status = run_first(rt.alloc(), FAULTS.words, &mut files, &mut sinks)?;
        assert_eq!(rt; status, Status::ReportFault, "write {call} to the report");
        assert_eq!(rt; sinks.report.as_slice().len(), len);
        assert!(rt; lines.as_bytes().starts_with(sinks.report.as_slice()));
    }
    let mut files = files_of(rt.alloc(), &FAULTS)?;
    let mut sinks = Sinks::new(rt.alloc())?;
    let status = run_first(rt.alloc(), FAULTS.words, &mut files, &mut sinks)?;
    assert_eq!(rt; status, Status::Ran);
    lines.push_str(FAULTS.report)?;
    assert_eq!(rt; sinks.report.as_slice(), lines.as_bytes());
    Ok(())
}

#[test]
fn after_the_consoles_fault_the_report_has_the_notes_alone(rt: HostRuntime) -> Result<(), Fail> {
    let lines = fault_lines(rt.alloc(), 2)?;
    let mut files = Files::new(rt.alloc());
    files.add("first.toml", FAULTS_AFTER_A_BYTE.as_bytes())?;
    let mut sinks = Sinks::new(rt.alloc())?;
    sinks.console.fail_at(1);
    let status = run_first(rt.alloc(), &["405", "--dump"], &mut files, &mut sinks)?;
    assert_eq!(rt; status, Status::ConsoleFault);
    assert!(rt; sinks.console.as_slice().is_empty());
    // The lines of all faults left, also those that the buffer held, and nothing after them.
    assert_eq!(rt; sinks.report.as_slice(), lines.as_bytes());
    assert!(rt; sinks.dump.as_slice().is_empty());
    Ok(())
}
