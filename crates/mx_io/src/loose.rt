//! Files in memory with sizes of their own.
ghost use Rattle.std.specs.Prelude.{◌≡◌, ◌≤◌, Ok, OnOk, OnErr, IfOk, IsOk, length, take};
ghost use Rattle.std.specs.Option.{option_map};
ghost use Rattle.std.specs.Result.{result_ok};
ghost use Rattle.std.specs.FinMap as map;
ghost use Rattle.mx_io.specs.Store.{CopiesPart};
ghost use Rattle.mx_io.specs.Answer.{Sized, Gave};
ghost use Rattle.mx_io.specs.Loose.{loose_size, loose_bytes, with_loose, loose_store, loose_gives, loose_tells};

use crate::named::{Named, add, find};
use crate::part::copy_part;
use crate::{Failed, Store};
use mx_words::NoMemory;
use std::alloc::Global;
use std::collections::VecDeque;
use std::marker::Model;

/// A file whose size is told apart from its bytes.
#[derive(Drop)]
pub(crate) struct LooseFile {
    size: u64,
    bytes: Vec<u8>,
}

/// Files in memory, each with a size and bytes of its own, which need not agree: a store that tells
/// nothing. None of its calls fails.
#[derive(Drop)]
pub struct Loose {
    alloc: Global,
    entries: VecDeque<Named<LooseFile>>,
}

impl Model for Loose {
    ghost use Rattle.mx_io.specs.Loose.{LooseMap, loose_code};

    ghost Value = { LooseMap };

    ghost coded = { loose_code };

    ghost use Rattle.mx_io.specs.Loose.{loose_of};

    ghost view = { λ f. loose_of f.entries.items };
}

impl Loose {
    /// A store without files.
    pub fn new(alloc: Global) -> Loose
        ensures { result ≡ map.empty }
    {
        Loose {
            alloc,
            entries: VecDeque::new(alloc),
        }
    }

    /// Adds a file that tells this size and gives these bytes. A name that is present gets the new ones.
    /// Where memory is wanting nothing changes.
    pub fn add(&mut self, name: &str, size: u64, bytes: &[u8]) -> Result<(), NoMemory>
        ensures ok { OnOk result (self.new ≡ with_loose self.old name.now size bytes.now) }
        ensures err { OnErr result (self.new ≡ self.old) }
    {
        let bytes = Vec::from_slice(self.alloc, bytes)?;
        let file = LooseFile { size, bytes };
        add(self.alloc, &mut self.entries, name, file)
    }

    fn file(&self, name: &str) -> Option<&LooseFile>
        ensures { option_map (λ f. (f.now.size, f.now.bytes.items)) result
            ≡ map.get self.now name.now }
    {
        find(&self.entries, name)
    }
}

impl Store for Loose {
    ghost state = { loose_store };

    ghost gives = { loose_gives };

    /// Tells the size that was given with the file. Never fails.
    fn size(&mut self, name: &str) -> Result<Option<u64>, Failed>
        ensures gives { loose_gives self.old (Sized name.now (result_ok result)) self.new }
        ensures told { result ≡ Ok (loose_size self.old name.now) }
        ensures stays { self.new ≡ self.old }
    {
        match self.file(name) {
            Some(file) => Ok(Some(file.size)),
            None => Ok(None),
        }
    }

    /// Puts as many bytes as stand there and fit. Never fails.
    fn read(&mut self, name: &str, at: u64, into: &mut [u8]) -> Result<usize, Failed>
        ensures gives { loose_gives self.old (Gave name.now at (length into.new)
            (option_map (λ k. take k into.new) (result_ok result))) self.new }
        ensures bound { IfOk result (λ k. k ≤ length into.new) }
        ensures ok { IsOk result }
        ensures part { IfOk result
            (CopiesPart (loose_bytes self.old name.now) at into.old into.new) }
        ensures stays { self.new ≡ self.old }
    {
        match self.file(name) {
            Some(file) => Ok(copy_part(&file.bytes, at, into)),
            None => Ok(0),
        }
    }

    ghost tells = { loose_tells };
}
