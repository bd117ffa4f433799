//! What the outside does to a call: words without meaning, absent, short and hostile files, and calls that fail.

use crate::calls::answer;
use crate::examples::files_of;
use crate::one_module::THREE_WORDS;
use mx_io::{Bytes, Files, Loose};
use mx_run::Status;
use std::test::Fail;

const USAGE: &str = "mondrix: these words have no meaning\n";

#[test]
fn words_without_meaning(rt: HostRuntime) -> Result<(), Fail> {
    let long = "1234567890123456";
    let cases: [&[&str]; 31] = [
        &[],
        &["asm"],
        &["asm", "-first.s"],
        &["asm", "first.s", "1"],
        &["run"],
        &["run", "first.toml"],
        &["run", "first.toml", "99999999999"],
        &["run", "first.toml", ""],
        &["run", "first.toml", "1x"],
        &["run", "first.toml", "-1"],
        &["run", "-first.toml", "1"],
        &["run", "", "1"],
        &["run", "first.toml", "1", "--dump", "--dump"],
        &["run", "first.toml", "1", "--tables", "--tables"],
        &["run", "first.toml", "1", "--counts", "--tables", "--counts"],
        &[
            "run",
            "first.toml",
            "1",
            "--schedule",
            "x",
            "--dump",
            "--schedule",
            "x",
        ],
        &["run", "first.toml", "1", "--schedule", "--schedule", "x"],
        &["run", "first.toml", "1", "--schedule", "x", "y"],
        &["run", "first.toml", "1", "--schedule="],
        &["run", "first.toml", "1", "--"],
        &["run", "first.toml", "1", "-d"],
        &["run", "first.toml", "1", "dump"],
        &["run", "first.toml", "1", "--schedule"],
        &["run", "first.toml", "1", "--schedule", "-x"],
        &["run", "first.toml", "1", "--dump=1"],
        &["run", "first.toml", "--dump", "1"],
        &["run", "first.toml", "1", "--effects"],
        &["trace", "first.toml", "1", "--effects", "--effects"],
        &["trace", "first.toml", "1", "--effects=1"],
        &["walk", "first.toml", "1"],
        &["run", "first.toml", long],
    ];
    for words in cases {
        let mut files = Files::new(rt.alloc());
        files.add("first.toml", b"")?;
        files.fail_at(1);
        let mut report = Bytes::new(rt.alloc(), 100)?;
        let status = answer(rt.alloc(), words, &mut files, &mut report)?;
        assert_eq!(rt; status, Status::Usage);
        assert_eq!(rt; report.as_slice(), USAGE.as_bytes());
    }
    Ok(())
}

#[test]
fn absent_and_short_files(rt: HostRuntime) -> Result<(), Fail> {
    let words = ["run", "first.toml", "10"];
    let mut report = Bytes::new(rt.alloc(), 100)?;
    let status = answer(rt.alloc(), &words, &mut Files::new(rt.alloc()), &mut report)?;
    assert_eq!(rt; status.number(), 6);
    assert_eq!(rt; report.as_slice(), b"no file first.toml\n".as_slice());

    let mut loose = Loose::new(rt.alloc());
    loose.add("first.toml", 10, b"four")?;
    let mut report = Bytes::new(rt.alloc(), 100)?;
    let status = answer(rt.alloc(), &words, &mut loose, &mut report)?;
    assert_eq!(rt; status.number(), 5);
    assert_eq!(rt;
        report.as_slice(),
        b"short file first.toml told=10 got=4\n".as_slice()
    );
    Ok(())
}

#[test]
fn each_call_fails_in_turn(rt: HostRuntime) -> Result<(), Fail> {
    let words = ["run", "first.toml", "10"];
    for call in 1..3u64 {
        let mut files = files_of(rt.alloc(), &THREE_WORDS)?;
        files.fail_at(call);
        let mut report = Bytes::new(rt.alloc(), 1000)?;
        let status = answer(rt.alloc(), &words, &mut files, &mut report)?;
        assert_eq!(rt; status, Status::StoreFault, "call {call} of the store");
        assert_eq!(rt; report.as_slice(), b"store fault\n".as_slice());
    }
    let mut failed = 0;
    for call in 1..1000u64 {
        let mut files = files_of(rt.alloc(), &THREE_WORDS)?;
        let mut report = Bytes::new(rt.alloc(), 1000)?;
        report.fail_at(call);
        let status = answer(rt.alloc(), &words, &mut files, &mut report)?;
        if status == Status::Ran {
            break;
        }
        failed = call;
        assert_eq!(rt; status, Status::ReportFault, "write {call} of the report");
        assert!(rt; THREE_WORDS.report.as_bytes().starts_with(report.as_slice()));
    }
    assert_eq!(rt; failed, 1, "the report leaves in one write");
    Ok(())
}
