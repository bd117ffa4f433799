//! The command `asm`: images, and sources, files and sinks that have none.

use crate::calls::{answer, call};
use crate::packets::{CONSOLE, DRIVER, PROTO};
use mx_elf::{read_image, symbol};
use mx_io::{Bytes, Files, Loose};
use mx_run::Status;
use std::alloc::{AllocError, Global};
use std::test::Fail;

/// `li a7, 1` and `ecall` at the start of RAM.
const LEAVES: &str = ".text 0x80000000\nli a7, 1\necall\n";

const WORDS: [&str; 2] = ["asm", "leaves.s"];

#[test]
fn an_image_goes_to_the_console(rt: HostRuntime) -> Result<(), Fail> {
    let mut files = Files::new(rt.alloc());
    files.add("leaves.s", LEAVES.as_bytes())?;
    let mut console = Bytes::new(rt.alloc(), 1000)?;
    let mut report = Bytes::new(rt.alloc(), 100)?;
    let status = call(rt.alloc(), &WORDS, &mut files, &mut console, &mut report)?;
    assert_eq!(rt; status, Status::Ran);
    assert!(rt; report.as_slice().is_empty());
    let bytes = console.as_slice();
    match read_image(bytes) {
        Ok(image) => {
            assert_eq!(rt; image.entry, 0x8000_0000);
            assert_eq!(rt; image.segments.len(), 1);
        }
        Err(_) => assert!(rt; false, "the image is read"),
    }
    // the segment's bytes follow the file header of 52 bytes and its program header of 32
    let words = b"\xb7\x08\x00\x00\x93\x88\x18\x00\x73\x00\x00\x00";
    assert!(rt; bytes.len() > 96);
    assert_eq!(rt; &bytes[84..96], words.as_slice());
    Ok(())
}

/// Labels of a module with their addresses.
type Labels = [(&'static str, u32); 3];

/// The modules: the source, where its code begins and how many bytes it has, where its data begin, and labels.
const MODULES: [(&str, u32, u32, u32, Labels); 3] = [
    (
        DRIVER,
        0x8000_0000,
        120,
        0x8000_1000,
        [
            ("start", 0x8000_0000),
            ("idle", 0x8000_0074),
            ("table", 0x8000_1000),
        ],
    ),
    (
        PROTO,
        0x8001_0000,
        72,
        0x8001_1000,
        [
            ("receive", 0x8001_0000),
            ("receive_back", 0x8001_0040),
            ("idle", 0x8001_0044),
        ],
    ),
    (
        CONSOLE,
        0x8002_0000,
        28,
        0x8002_1000,
        [
            ("print", 0x8002_0000),
            ("print_back", 0x8002_0014),
            ("line", 0x8002_1000),
        ],
    ),
];

#[test]
fn three_modules_of_fifteen_kib(rt: HostRuntime) -> Result<(), Fail> {
    for (source, at, code, data, labels) in MODULES {
        let mut files = Files::new(rt.alloc());
        files.add("module.s", source.as_bytes())?;
        let mut console = Bytes::new(rt.alloc(), 10000)?;
        let mut report = Bytes::new(rt.alloc(), 100)?;
        let words = ["asm", "module.s"];
        let status = call(rt.alloc(), &words, &mut files, &mut console, &mut report)?;
        assert_eq!(rt; status, Status::Ran);
        let bytes = console.as_slice();
        assert_eq!(rt; bytes.len(), 5120);
        let image = read_image(bytes).ok().ok_or("the image is refused")?;
        assert_eq!(rt; (image.entry, image.segments.len()), (at, 2));
        for segment in 0..image.segments.len() {
            let segment = image.segments.get(segment);
            if segment.flags == 5 {
                assert_eq!(rt; (segment.address, segment.file), (at, code));
            } else {
                assert_eq!(rt; (segment.address, segment.flags), (data, 6));
            }
        }
        for (name, address) in labels {
            assert_eq!(rt; symbol(bytes, name), Some(address), "{name}");
        }
    }
    Ok(())
}

fn letters(alloc: Global, count: usize) -> Result<Vec<u8>, AllocError> {
    let mut bytes = Vec::new(alloc);
    for _letter in 0..count {
        bytes.push(b'#')?;
    }
    Ok(bytes)
}

#[test]
fn sources_without_an_image(rt: HostRuntime) -> Result<(), Fail> {
    let over = letters(rt.alloc(), 1048577)?;
    let cases: [(&[u8], &str); 3] = [
        (
            b".text 0x80000000\nlx a7, 1\necall\n",
            "asm line=2 fault=1\n",
        ),
        (b".text 0x80000000\n\xff", "asm line=0 fault=11\n"),
        (over.as_slice(), "asm line=0 fault=11\n"),
    ];
    for (source, line) in cases {
        let mut files = Files::new(rt.alloc());
        files.add("leaves.s", source)?;
        let mut report = Bytes::new(rt.alloc(), 100)?;
        let status = answer(rt.alloc(), &WORDS, &mut files, &mut report)?;
        assert_eq!(rt; status.number(), 11, "{line}");
        assert_eq!(rt; report.as_slice(), line.as_bytes());
    }
    Ok(())
}

#[test]
fn absent_and_short_sources(rt: HostRuntime) -> Result<(), Fail> {
    let mut report = Bytes::new(rt.alloc(), 100)?;
    let status = answer(rt.alloc(), &WORDS, &mut Files::new(rt.alloc()), &mut report)?;
    assert_eq!(rt; status.number(), 6);
    assert_eq!(rt; report.as_slice(), b"no file leaves.s\n".as_slice());

    let mut loose = Loose::new(rt.alloc());
    loose.add("leaves.s", 9, b"ecall")?;
    let mut report = Bytes::new(rt.alloc(), 100)?;
    let status = answer(rt.alloc(), &WORDS, &mut loose, &mut report)?;
    assert_eq!(rt; status.number(), 5);
    assert_eq!(rt;
        report.as_slice(),
        b"short file leaves.s told=9 got=5\n".as_slice()
    );
    Ok(())
}

#[test]
fn each_call_of_asm_fails_in_turn(rt: HostRuntime) -> Result<(), Fail> {
    for failing in 1..3u64 {
        let mut files = Files::new(rt.alloc());
        files.add("leaves.s", LEAVES.as_bytes())?;
        files.fail_at(failing);
        let mut report = Bytes::new(rt.alloc(), 100)?;
        let status = answer(rt.alloc(), &WORDS, &mut files, &mut report)?;
        assert_eq!(rt; status, Status::StoreFault, "call {failing} of the store");
        assert_eq!(rt; report.as_slice(), b"store fault\n".as_slice());
    }
    // the image leaves in one write; one with too little room takes a part of it
    for room in [0u64, 60] {
        let mut files = Files::new(rt.alloc());
        files.add("leaves.s", LEAVES.as_bytes())?;
        let mut console = Bytes::new(rt.alloc(), room)?;
        let mut report = Bytes::new(rt.alloc(), 100)?;
        let status = call(rt.alloc(), &WORDS, &mut files, &mut console, &mut report)?;
        assert_eq!(rt; status, Status::ConsoleFault);
        assert_eq!(rt; console.as_slice().len() as u64, room);
        assert!(rt; report.as_slice().is_empty());
    }
    // so does the line of a refusal
    for room in [0u64, 8] {
        let mut report = Bytes::new(rt.alloc(), room)?;
        let status = answer(rt.alloc(), &WORDS, &mut Files::new(rt.alloc()), &mut report)?;
        assert_eq!(rt; status, Status::ReportFault);
        assert!(rt; b"no file ".as_slice().starts_with(report.as_slice()));
        assert_eq!(rt; report.as_slice().len() as u64, room);
    }
    Ok(())
}
