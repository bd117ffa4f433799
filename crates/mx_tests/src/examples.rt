//! Examples as data: a manifest, the words of the call, and the whole texts that a run of it writes.

use mx_io::{Bytes, Files, Store};
use mx_run::{Status, Words, mondrix};
use mx_words::NoMemory;
use std::alloc::Global;
use std::process::Abort;
use std::test::Fail;

/// A run that is asked by `run first.toml` and some words more.
#[derive(Clone, Copy)]
pub struct Example {
    /// What it shows.
    pub name: &'static str,
    /// The bytes of `first.toml`.
    pub manifest: &'static str,
    /// The words after the manifest's name.
    pub words: &'static [&'static str],
    /// The bytes of the file `order`, a schedule.
    pub order: &'static [u8],
    /// What the console gets.
    pub console: &'static str,
    /// What the report gets.
    pub report: &'static str,
}

/// Three sinks in memory, with room for a report of 32 KiB and a dump of 1 MiB.
#[derive(Drop)]
pub struct Sinks {
    /// The console.
    pub console: Bytes,
    /// The report.
    pub report: Bytes,
    /// The dump.
    pub dump: Bytes,
}

impl Sinks {
    /// Three sinks with nothing written.
    pub fn new(alloc: Global) -> Result<Sinks, NoMemory> {
        Ok(Sinks {
            console: Bytes::new(alloc, 8192)?,
            report: Bytes::new(alloc, 32768)?,
            dump: Bytes::new(alloc, 1048576)?,
        })
    }
}

/// The program's answer to the words `run first.toml` and these.
pub fn run_first<S: Store>(
    alloc: Global,
    words: &[&str],
    store: &mut S,
    sinks: &mut Sinks,
) -> Result<Status, Fail> {
    let mut list = Words::new(alloc);
    list.push("run")?;
    list.push("first.toml")?;
    for word in words {
        list.push(word)?;
    }
    Ok(mondrix(
        alloc,
        &list,
        store,
        &mut sinks.console,
        &mut sinks.report,
        &mut sinks.dump,
    ))
}

/// The files of an example: its manifest and its schedule.
pub fn files_of(alloc: Global, example: &Example) -> Result<Files, NoMemory> {
    let mut files = Files::new(alloc);
    files.add("first.toml", example.manifest.as_bytes())?;
    files.add("order", example.order)?;
    Ok(files)
}

/// Runs an example, and compares what console and report get.
pub fn show(rt: &impl Abort, alloc: Global, example: &Example) -> Result<(), Fail> {
    let name = example.name;
    let mut files = files_of(alloc, example)?;
    let mut sinks = Sinks::new(alloc)?;
    let status = run_first(alloc, example.words, &mut files, &mut sinks)?;
    assert_eq!(rt; status, Status::Ran, "{name}");
    assert_eq!(rt;
        sinks.console.as_slice(),
        example.console.as_bytes(),
        "{name}"
    );
    assert_eq!(rt;
        sinks.report.as_slice(),
        example.report.as_bytes(),
        "{name}"
    );
    Ok(())
}
