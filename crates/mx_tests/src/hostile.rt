//! Hostile manifests, images and schedules, and the line with which each is refused.

use crate::examples::{Sinks, run_first};
use mx_io::{Files, Loose, Store};
use std::alloc::Global;
use std::process::Abort;
use std::test::Fail;

const TOP: &str = "version = 1\nram_kib = 64\n";

const MODULE: &str =
    "name = \"m\"\nat = 0x80000000\nperm = \"rx\"\nwords = [0x00100893, 0x00500513, 0x00000073]\n";

const IMAGE: &str = "name = \"m\"\nimage = \"m.elf\"\n";

const HART: &str = "module = \"m\"\n";

/// A manifest in three parts, and the line that refuses it.
type Case = (&'static str, &'static str, &'static str, &'static str);

/// The top table, the module and the hart of a manifest.
const MANIFESTS: [Case; 13] = [
    (
        "version = 3\nram_kib = 64\n",
        MODULE,
        HART,
        "refused fault=5 at=manifest key=version detail=0\n",
    ),
    (
        "version = 1\nram_kib = 64\ncolor = 1\n",
        MODULE,
        HART,
        "refused fault=2 at=manifest key=- detail=0\n",
    ),
    (
        "version = 1\nram_kib = 66\n",
        MODULE,
        HART,
        "refused fault=5 at=manifest key=ram_kib detail=0\n",
    ),
    (
        TOP,
        "name = \"m\"\nat = 0x80000000\nperm = \"rx\"\nwords = [0x00100893, 0x00500513, 0x00000073]\nheap = 0x80001000\n",
        HART,
        "refused fault=3 at=module.1 key=heap_words detail=0\n",
    ),
    (
        TOP,
        "name = \"m\"\nat = 0x80000000\nperm = \"rx\"\nwords = [0x00100893, 0x00500513, 0x00000073]\nimage = \"m.elf\"\n",
        HART,
        "refused fault=6 at=module.1 key=image detail=0\n",
    ),
    (
        TOP,
        MODULE,
        "module = \"n\"\n",
        "refused fault=8 at=hart.1 key=module detail=0\n",
    ),
    (
        TOP,
        "name = \"m\"\nat = 0x80010000\nperm = \"rx\"\nwords = [0x00100893, 0x00500513, 0x00000073]\n",
        HART,
        "refused fault=12 at=module.1 key=at detail=0\n",
    ),
    (
        TOP,
        "name = \"m\"\nat = 0x80000000\nperm = \"rx\"\nwords = [0x00100893, 0x00500513, 0x00000073]\nreturns = [0x8000000C]\n",
        HART,
        "refused fault=15 at=module.1 key=returns detail=0\n",
    ),
    (
        TOP,
        "name = \"m\"\nat = 0x80000000\nperm = \"rx\"\nwords = [0x00100893, 0x00500513, 0x00000073]\nreturns = [0x80000004, 0x80000004]\n",
        HART,
        "refused fault=16 at=module.1 key=returns detail=0\n",
    ),
    (
        TOP,
        "name = \"m\"\nat = 0x80000000\nperm = \"rx\"\nwords = [0x00100893, 0x00500513, 0x00000073]\nseal = true\n",
        HART,
        "refused fault=2 at=module.1 key=- detail=0\n",
    ),
    (
        TOP,
        "name = \"m\"\nat = 0x80000000\nperm = \"rx\"\nwords = [0x00100893, 0x00500513, 0x00000073]\n[[module]]\nname = \"k\"\nat = 0x80000000\nperm = \"r\"\nwords = [0]\n",
        HART,
        "refused fault=13 at=module.2 key=at detail=1\n",
    ),
    (
        TOP,
        "name = \"m\"\nat = 0x80000002\nperm = \"rx\"\nwords = [0x00100893, 0x00500513, 0x00000073]\n",
        HART,
        "refused fault=5 at=module.1 key=at detail=0\n",
    ),
    (
        TOP,
        "name = \"m\"\nat = 0x80000000\nperm = \"rx\"\nwords = []\n",
        HART,
        "refused fault=5 at=module.1 key=words detail=0\n",
    ),
];

/// A file header that tells two program headers after it, and 48 bytes.
const TWO_HEADERS: &[u8] =
    b"\x7f\x45\x4c\x46\x01\x01\x01\x00\x00\x00\x00\x00\x00\x00\x00\x00\x02\x00\xf3\x00\x01\x00\x00\x00\x00\x00\x00\x80\x34\x00\x00\x00\x00\x00\x00\x00\x00\x00\x00\x00\x34\x00\x20\x00\x02\x00\x00\x00\x00\x00\x00\x00\x00\x00\x00\x00\x00\x00\x00\x00\x00\x00\x00\x00\x00\x00\x00\x00\x00\x00\x00\x00\x00\x00\x00\x00\x00\x00\x00\x00\x00\x00\x00\x00\x00\x00\x00\x00\x00\x00\x00\x00\x00\x00\x00\x00\x00\x00\x00\x00";

/// A file header, one program header whose flags are read, write and execute, and four bytes.
const ALL_FLAGS: &[u8] =
    b"\x7f\x45\x4c\x46\x01\x01\x01\x00\x00\x00\x00\x00\x00\x00\x00\x00\x02\x00\xf3\x00\x01\x00\x00\x00\x00\x00\x00\x80\x34\x00\x00\x00\x00\x00\x00\x00\x00\x00\x00\x00\x34\x00\x20\x00\x01\x00\x00\x00\x00\x00\x00\x00\x01\x00\x00\x00\x54\x00\x00\x00\x00\x00\x00\x80\x00\x00\x00\x80\x04\x00\x00\x00\x04\x00\x00\x00\x07\x00\x00\x00\x04\x00\x00\x00\x73\x00\x00\x00";

/// The manifest of these parts.
fn joined(alloc: Global, top: &str, module: &str, hart: &str) -> Result<String, Fail> {
    Ok(format!(in alloc; "{top}[[module]]\n{module}[[hart]]\n{hart}")?)
}

/// Compares the line with which a run of these files is refused.
fn refuses<S: Store>(
    rt: &impl Abort,
    alloc: Global,
    words: &[&str],
    store: &mut S,
    line: &str,
) -> Result<(), Fail> {
    let mut sinks = Sinks::new(alloc)?;
    let status = run_first(alloc, words, store, &mut sinks)?;
    assert_eq!(rt; status.number(), 3, "{line}");
    assert!(rt; sinks.console.as_slice().is_empty());
    assert_eq!(rt; sinks.report.as_slice(), line.as_bytes());
    assert!(rt; sinks.dump.as_slice().is_empty());
    Ok(())
}

#[test]
fn hostile_manifests(rt: HostRuntime) -> Result<(), Fail> {
    for (top, module, hart, line) in MANIFESTS {
        let text = joined(rt.alloc(), top, module, hart)?;
        let mut files = Files::new(rt.alloc());
        files.add("first.toml", text.as_bytes())?;
        refuses(&rt, rt.alloc(), &["10", "--dump"], &mut files, line)?;
    }
    Ok(())
}

#[test]
fn bytes_that_are_no_manifest(rt: HostRuntime) -> Result<(), Fail> {
    let over = vec![in rt.alloc(); b' '; 1048577]?;
    let most = vec![in rt.alloc(); b' '; 1048576]?;
    let cases: [(&[u8], &str); 4] = [
        (b"", "refused fault=3 at=manifest key=version detail=0\n"),
        (b"\xff", "refused fault=1 at=manifest key=- detail=0\n"),
        (
            over.as_slice(),
            "refused fault=9 at=manifest key=- detail=0\n",
        ),
        (
            most.as_slice(),
            "refused fault=3 at=manifest key=version detail=0\n",
        ),
    ];
    for (bytes, line) in cases {
        let mut files = Files::new(rt.alloc());
        files.add("first.toml", bytes)?;
        refuses(&rt, rt.alloc(), &["10"], &mut files, line)?;
    }
    Ok(())
}

#[test]
fn hostile_images(rt: HostRuntime) -> Result<(), Fail> {
    let short = [0u8; 51];
    let zeros = [0u8; 52];
    let cases: [(&[u8], &str); 4] = [
        (&short, "refused fault=10 at=module.1 key=image detail=1\n"),
        (&zeros, "refused fault=10 at=module.1 key=image detail=2\n"),
        (
            TWO_HEADERS,
            "refused fault=10 at=module.1 key=image detail=6\n",
        ),
        (
            ALL_FLAGS,
            "refused fault=11 at=module.1 key=image detail=0\n",
        ),
    ];
    let text = joined(rt.alloc(), TOP, IMAGE, HART)?;
    for (image, line) in cases {
        let mut files = Files::new(rt.alloc());
        files.add("first.toml", text.as_bytes())?;
        files.add("m.elf", image)?;
        refuses(&rt, rt.alloc(), &["10"], &mut files, line)?;
    }
    Ok(())
}

#[test]
fn sizes_over_their_limits(rt: HostRuntime) -> Result<(), Fail> {
    // a size over its limit is refused before a byte is read
    let text = joined(rt.alloc(), TOP, IMAGE, HART)?;
    let mut files = Loose::new(rt.alloc());
    files.add("first.toml", text.len() as u64, text.as_bytes())?;
    files.add("m.elf", 16777217, b"")?;
    let line = "refused fault=9 at=module.1 key=image detail=0\n";
    refuses(&rt, rt.alloc(), &["10"], &mut files, line)?;

    let order = vec![in rt.alloc(); 0; 16777217]?;
    let text = joined(rt.alloc(), TOP, MODULE, HART)?;
    let mut files = Files::new(rt.alloc());
    files.add("first.toml", text.as_bytes())?;
    files.add("order", order.as_slice())?;
    let words = ["10", "--schedule", "order"];
    let line = "refused fault=9 at=schedule key=- detail=0\n";
    refuses(&rt, rt.alloc(), &words, &mut files, line)
}

#[test]
fn files_are_judged_in_their_order(rt: HostRuntime) -> Result<(), Fail> {
    let beyond = "name = \"m\"\nat = 0x80010000\nperm = \"rx\"\nwords = [0]\n";
    let full = format!(in rt.alloc(); "{TOP}leaf = 0\n")?;
    let need = "tables full upper=2/128 leaf=1/0 spill=0/4096\n";
    let cases = [
        (TOP, IMAGE, 6, "no file m.elf\n"),
        (TOP, MODULE, 6, "no file absent\n"),
        (
            TOP,
            beyond,
            3,
            "refused fault=12 at=module.1 key=at detail=0\n",
        ),
        (full.as_str(), MODULE, 4, need),
    ];
    for (top, module, number, line) in cases {
        let text = joined(rt.alloc(), top, module, HART)?;
        let mut files = Files::new(rt.alloc());
        files.add("first.toml", text.as_bytes())?;
        let mut sinks = Sinks::new(rt.alloc())?;
        let words = ["10", "--schedule", "absent"];
        let status = run_first(rt.alloc(), &words, &mut files, &mut sinks)?;
        assert_eq!(rt; status.number(), number, "{line}");
        assert_eq!(rt; sinks.report.as_slice(), line.as_bytes());
    }
    Ok(())
}

#[test]
fn sixty_four_modules(rt: HostRuntime) -> Result<(), Fail> {
    let mut text = String::from_str(rt.alloc(), "version = 2\nram_kib = 64\n")?;
    for number in 0..64u32 {
        let address = 0x8000_0000u32 + 4 * number;
        let module = format!(in rt.alloc();
            "[[module]]\nname = \"m{number}\"\nat = {address}\nperm = \"r\"\nwords = [0]\n"
        )?;
        text.push_str(module.as_str())?;
    }
    text.push_str("[[hart]]\nmodule = \"m0\"\n")?;
    let mut files = Files::new(rt.alloc());
    files.add("first.toml", text.as_bytes())?;
    let line = "refused fault=5 at=manifest key=module detail=0\n";
    refuses(&rt, rt.alloc(), &["10"], &mut files, line)
}

#[test]
fn tables_that_are_full_at_boot(rt: HostRuntime) -> Result<(), Fail> {
    for kind in ["packed", "multilevel"] {
        let top = format!(in rt.alloc(); "{TOP}leaf = 0\ntables = \"{kind}\"\n")?;
        let text = joined(rt.alloc(), top.as_str(), MODULE, HART)?;
        let mut files = Files::new(rt.alloc());
        files.add("first.toml", text.as_bytes())?;
        let mut sinks = Sinks::new(rt.alloc())?;
        let status = run_first(rt.alloc(), &["10"], &mut files, &mut sinks)?;
        assert_eq!(rt; status.number(), 4, "{kind}");
        let line = b"tables full upper=2/128 leaf=1/0 spill=0/4096\n";
        assert_eq!(rt; sinks.report.as_slice(), line.as_slice(), "{kind}");
    }
    Ok(())
}
