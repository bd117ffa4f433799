//! What stands outside of a call of the program: its files and its sinks, in memory.

use crate::crumbs::Crumbs;
use crate::rows::FILES;
use crate::snapshots::snapshot_of;
use mx_io::{Bytes, Files};
use mx_run::{Status, Words, mondrix};
use std::alloc::Global;
use std::test::Fail;

/// Each call moves all the bytes that it can.
pub const WHOLE: usize = usize::MAX;

/// A part of what stands outside.
#[derive(Clone, Copy, PartialEq, Eq, Debug)]
pub enum Part {
    /// The files.
    Store,
    /// The console.
    Console,
    /// The report.
    Report,
    /// The dump.
    Dump,
}

/// All of them.
pub const PARTS: [Part; 4] = [Part::Store, Part::Console, Part::Report, Part::Dump];

/// The files of FILES and three sinks.
#[derive(Drop)]
pub struct Outside {
    /// The files.
    pub store: Crumbs<Files>,
    /// The console, with room for 4 KiB.
    pub console: Crumbs<Bytes>,
    /// The report, with room for 32 KiB.
    pub report: Crumbs<Bytes>,
    /// The dump, with room for 70000 bytes.
    pub dump: Crumbs<Bytes>,
}

impl Outside {
    /// With nothing written. Each call moves at most so many bytes.
    pub fn new(alloc: Global, most: usize) -> Result<Outside, Fail> {
        let mut files = Files::new(alloc);
        for (name, bytes) in &FILES {
            files.add(name, bytes)?;
        }
        Ok(Outside {
            store: Crumbs { inner: files, most },
            console: Crumbs {
                inner: Bytes::new(alloc, 4096)?,
                most,
            },
            report: Crumbs {
                inner: Bytes::new(alloc, 32768)?,
                most,
            },
            dump: Crumbs {
                inner: Bytes::new(alloc, 70000)?,
                most,
            },
        })
    }

    /// Adds the snapshot of this name, where there is one.
    pub fn add_snapshot(&mut self, alloc: Global, name: &str) -> Result<(), Fail> {
        match snapshot_of(alloc, name)? {
            Some(bytes) => {
                self.store.inner.add(name, bytes.as_slice())?;
                Ok(())
            }
            None => Ok(()),
        }
    }

    /// Lists a call of a part that is to fail, by its number from 1.
    pub fn fail_at(&mut self, part: Part, call: u64) {
        match part {
            Part::Store => self.store.inner.fail_at(call),
            Part::Console => self.console.inner.fail_at(call),
            Part::Report => self.report.inner.fail_at(call),
            Part::Dump => self.dump.inner.fail_at(call),
        }
    }

    /// How many bytes were written to a part.
    pub fn written(&self, part: Part) -> usize {
        match part {
            Part::Store => 0,
            Part::Console => self.console.inner.as_slice().len(),
            Part::Report => self.report.inner.as_slice().len(),
            Part::Dump => self.dump.inner.as_slice().len(),
        }
    }

    /// The program's answer to these words, with a blank between two of them.
    pub fn ask(&mut self, alloc: Global, words: &str) -> Result<Status, Fail> {
        let list = words_of(alloc, words)?;
        Ok(mondrix(
            alloc,
            &list,
            &mut self.store,
            &mut self.console,
            &mut self.report,
            &mut self.dump,
        ))
    }
}

/// Words with a blank between two of them.
pub fn words_of(alloc: Global, words: &str) -> Result<Words, Fail> {
    let mut list = Words::new(alloc);
    for word in words.split(' ') {
        list.push(word)?;
    }
    Ok(list)
}
