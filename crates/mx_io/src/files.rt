//! Files in memory.
ghost use Rattle.std.specs.Prelude.{true, ◌≡◌, ◌≤◌, ◌↔◌, IsErr, IsTrue, OnOk, OnErr, IfOk, Some, length, take};
ghost use Rattle.std.specs.Option.{option_map};
ghost use Rattle.std.specs.Result.{result_ok};
ghost use Rattle.std.specs.FinMap as map;
ghost use Rattle.mx_io.specs.Store.{file_bytes, Asks, CopiesPart};
ghost use Rattle.mx_io.specs.Answer.{Sized, Gave, tells_by};
ghost use Rattle.mx_io.specs.Files.{no_files, with_file, with_failing, after_ask, files_store};
ghost use Rattle.mx_io.specs.Calls.{fails_next};

use crate::calls::Calls;
use crate::named::{Named, add, find};
use crate::part::copy_part;
use crate::{Entry, Failed, Folder, Placed, Store};
use mx_words::NoMemory;
use std::alloc::Global;
use std::collections::VecDeque;
use std::io;
use std::io::ErrorKind;
use std::marker::Model;

/// Files in memory: a store that tells its files. Calls of it can be made to fail by their numbers.
#[derive(Drop)]
pub struct Files {
    alloc: Global,
    entries: VecDeque<Named<Vec<u8>>>,
    calls: Calls,
    faults: u64,
}

impl Model for Files {
    ghost use Rattle.mx_io.specs.Files.{FilesState, files_code};

    ghost Value = { FilesState };

    ghost coded = { files_code };

    ghost use Rattle.mx_io.specs.Files.{files_of};

    ghost view = { λ f.
        record { files = files_of f.entries.items; faults = f.faults; calls = f.calls } };

    ghost use Rattle.std.specs.Prelude.{◌<◌, ◌^◌};

    ghost invariant = { λ f. f.faults < 2 ^ 64 };
}

impl Files {
    /// A store without files, with no fault counted and no call made or listed.
    pub fn new(alloc: Global) -> Files
        ensures { result ≡ no_files }
    {
        Files {
            alloc,
            entries: VecDeque::new(alloc),
            calls: Calls::new(),
            faults: 0,
        }
    }

    /// Adds a file. A name that is present gets the new bytes. Where memory is wanting nothing changes.
    pub fn add(&mut self, name: &str, bytes: &[u8]) -> Result<(), NoMemory>
        ensures ok { OnOk result (self.new ≡ with_file self.old name.now bytes.now) }
        ensures err { OnErr result (self.new ≡ self.old) }
    {
        let bytes = Vec::from_slice(self.alloc, bytes)?;
        add(self.alloc, &mut self.entries, name, bytes)
    }

    /// Lists the number of a call that is to fail. Calls of `size` and `read` are counted from 1. Eight
    /// numbers are held, and a ninth is ignored. Calls after the first 2^64 - 1 have no number.
    pub fn fail_at(&mut self, call: u64)
        ensures { self.new ≡ with_failing self.old call }
    {
        self.calls.fail_at(call);
    }

    // Numbers one call, and counts a fault where it is listed.
    fn begin_call(&mut self) -> Result<(), Failed>
        ensures after { self.new ≡ after_ask self.old }
        ensures fails { IsErr result ↔ IsTrue (fails_next self.old.calls) }
        ensures asks { Asks (files_store self.old) (files_store self.new) result }
    {
        if self.calls.next() {
            self.faults = self.faults.saturating_add(1);
            return Err(Failed);
        }
        Ok(())
    }

    fn bytes_of(&self, name: &str) -> Option<&[u8]>
        ensures { option_map (λ b. b.now) result ≡ map.get self.now.files name.now }
    {
        match find(&self.entries, name) {
            Some(bytes) => Some(bytes.as_slice()),
            None => None,
        }
    }
}

impl Store for Files {
    ghost state = { files_store };

    ghost gives = { tells_by files_store };

    /// Fails exactly where the call is listed, and then counts one fault.
    fn size(&mut self, name: &str) -> Result<Option<u64>, Failed>
        ensures gives { tells_by files_store self.old (Sized name.now (result_ok result)) self.new }
        ensures after { self.new ≡ after_ask self.old }
        ensures fails { IsErr result ↔ IsTrue (fails_next self.old.calls) }
    {
        self.begin_call()?;
        match self.bytes_of(name) {
            Some(bytes) => Ok(Some(bytes.len() as u64)),
            None => Ok(None),
        }
    }

    /// Fails exactly where the call is listed, and then counts one fault and puts nothing. Else puts as
    /// many bytes as stand there and fit.
    fn read(&mut self, name: &str, at: u64, into: &mut [u8]) -> Result<usize, Failed>
        ensures gives { tells_by files_store self.old (Gave name.now at (length into.new)
            (option_map (λ k. take k into.new) (result_ok result))) self.new }
        ensures bound { IfOk result (λ k. k ≤ length into.new) }
        ensures part { IfOk result
            (CopiesPart (file_bytes self.old.files name.now) at into.old into.new) }
        ensures nothing { OnErr result (into.new ≡ into.old) }
        ensures after { self.new ≡ after_ask self.old }
        ensures fails { IsErr result ↔ IsTrue (fails_next self.old.calls) }
    {
        self.begin_call()?;
        match self.bytes_of(name) {
            Some(bytes) => Ok(copy_part(bytes, at, into)),
            None => Ok(0),
        }
    }

    ghost tells = { λ s answer t step. step };
}

/// As a folder, from which `FolderStore` reads: it tells its files, and every call of it succeeds but the opening
/// of a file that is absent. No call is numbered.
impl<'a> Folder for &'a Files {
    type File = &'a [u8];

    ghost told = { λ f. Some f.now.files };

    ghost sure = { λ _. true };

    fn look(&self, name: &str) -> io::Result<Entry> {
        match self.bytes_of(name) {
            Some(bytes) => Ok(Entry::Regular(bytes.len() as u64)),
            None => Ok(Entry::Absent),
        }
    }

    fn open(&self, name: &str) -> io::Result<&'a [u8]> {
        match self.bytes_of(name) {
            Some(bytes) => Ok(bytes),
            None => Err(io::Error::from(ErrorKind::NotFound)),
        }
    }
}

/// Bytes in memory, as a file: they are told, and every read succeeds.
impl<'a> Placed for &'a [u8] {
    ghost bytes = { λ b. Some b.now };

    ghost sure = { λ _. true };

    fn read_at(&mut self, at: u64, into: &mut [u8]) -> io::Result<usize> {
        Ok(copy_part(self, at, into))
    }
}
