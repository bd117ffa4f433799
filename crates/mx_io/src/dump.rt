//! The file of the dump.
ghost use Rattle.std.specs.Prelude.{◌≡◌, ◌<◌, ◌≤◌, List, ℕ, Option, None, IfOk, IsOk};
ghost use Rattle.std.specs.Io.KnownBytes.{Keeps};
ghost use Rattle.mx_io.specs.Real.{stream, file_sink, file_maker};

use crate::faults::{count_fault, write_some};
use crate::{Failed, Sink, Stream, Untold};
use std::rt::Files;
use std::{fs, io};

/// The file that a `DumpFile` makes.
const DUMP_FILE: &str = "memory.bin";

/// Something that makes a file to write to.
pub trait Maker {
    /// What is written to.
    type File: Stream + Drop;

    /// What a file that was just made holds, where that is known.
    ghost fresh: { Option (List ℕ) };

    /// How many bytes a file that it makes is sure to take; where that is more than none, it is sure to make one.
    ghost room: { Self → ℕ };

    /// Makes a fresh file, in place of one that stands there.
    fn make(&mut self) -> io::Result<Self::File>
        ensures holds { IfOk result (λ file. Keeps fresh (Self.File.contents file)) }
        ensures room { IfOk result (λ file. room self.old ≤ Self.File.room file) }
        ensures sure { 0 < room self.old → IsOk result };
}

/// The file `memory.bin` of the current folder, made through the runtime.
#[derive(Drop)]
pub struct DumpFile<R> {
    files: R,
}

impl<R: Files> Maker for DumpFile<R> {
    type File = Untold<R::File>;

    ghost fresh = { None };

    ghost room = { λ _. 0 };

    fn make(&mut self) -> io::Result<Untold<R::File>> {
        let file = fs::create(&self.files, DUMP_FILE)?;
        Ok(Untold::new(file))
    }
}

/// A file that is made at the first write, so that it is neither made nor changed where nothing is written.
/// It tells what its file tells, and before the file is made what a fresh one would hold; over the file
/// `memory.bin` of the system that is nothing. Each error counts a fault, and so does a write that takes
/// nothing.
#[derive(Drop)]
pub struct FileSink<M: Maker> {
    maker: M,
    file: Option<M::File>,
    faults: u64,
}

impl<R: Files> FileSink<DumpFile<R>> {
    /// A sink to the file `memory.bin` of the current folder, which isn't made yet, with no fault counted.
    pub fn new(files: R) -> FileSink<DumpFile<R>>
        ensures { file_sink None (λ _. 0) (λ _. None) (λ _. 0) result ≡ stream None 0 0 }
    {
        FileSink::over(DumpFile { files })
    }
}

impl<M: Maker> FileSink<M> {
    /// A sink to the file that the maker makes, which isn't made yet, with no fault counted.
    pub fn over(maker: M) -> FileSink<M>
        ensures state { file_sink M.fresh M.room M.File.contents M.File.room result
            ≡ stream M.fresh (M.room maker) 0 }
        ensures maker { file_maker result ≡ maker }
    {
        FileSink {
            maker,
            file: None,
            faults: 0,
        }
    }
}

impl<M: Maker> Sink for FileSink<M> {
    ghost state = { file_sink M.fresh M.room M.File.contents M.File.room };

    fn write(&mut self, bytes: &[u8]) -> Result<usize, Failed> {
        if let Some(file) = &mut self.file {
            return write_some(file, &mut self.faults, bytes);
        }
        match self.maker.make() {
            Ok(mut file) => {
                let result = write_some(&mut file, &mut self.faults, bytes);
                self.file = Some(file);
                result
            }
            Err(_) => Err(count_fault(&mut self.faults)),
        }
    }
}
