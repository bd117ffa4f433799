//! The files of a folder.
ghost use Rattle.std.specs.Prelude.{◌≡◌, ◌≢◌, ◌≤◌, ℕ, Bool, false, IsTrue, List, Option, Some, None, IfSome, IfOk};
ghost use Rattle.std.specs.Prelude.{IsOk, length, take, option_map};
ghost use Rattle.std.specs.FinMap.{get};
ghost use Rattle.mx_io.specs.Store.{FileMap, file_bytes};
ghost use Rattle.mx_io.specs.Answer.{IsPart, tells_by};
ghost use Rattle.mx_io.specs.Real.{folder_store, IsEntry, LooksSurely};
ghost use Rattle.mx_io.specs.declared.folder.Entry.{Entry as Found};

use crate::faults::count_fault;
use crate::{Failed, Store};
use std::io::{ErrorKind, Read, Seek, SeekFrom};
use std::rt::Files;
use std::{fs, io};

/// What stands under a name.
#[derive(Clone, Copy, PartialEq, Eq)]
pub enum Entry {
    /// Nothing.
    Absent,
    /// A regular file with so many bytes.
    Regular(u64),
    /// Something that is no regular file: a folder, a device, a pipe or a socket.
    Other,
}

/// A file that is read from a place on.
pub trait Placed {
    /// Its bytes, where it tells them.
    ghost bytes: { Self → Option (List ℕ) };

    /// Whether every read of it is sure to succeed.
    ghost sure: { Self → Bool };

    /// One read from place `at` on: as many bytes as stand there and fit, or fewer, and none only at the end.
    fn read_at(&mut self, at: u64, into: &mut [u8]) -> io::Result<usize>
        ensures bound { IfOk result (λ k. k ≤ length into.new) }
        ensures part { IfSome (bytes self.old)
            (λ bytes. IfOk result (λ k. IsPart bytes at (length into.new) (take k into.new))) }
        ensures sure { IsTrue (sure self.old) → IsOk result };
}

/// A folder whose files are read by name.
pub trait Folder {
    /// What is read from.
    type File: Placed + Drop;

    /// Its files, where it tells them.
    ghost told: { Self → Option FileMap };

    /// Whether it tells its files and every call is sure to succeed, but for the opening of a file that is absent.
    ghost sure: { Self → Bool };

    /// Looks a name up without opening what stands there.
    fn look(&self, name: &str) -> io::Result<Entry>
        ensures found { IfSome (told self.now) (λ files. IfOk result (IsEntry files name.now)) }
        ensures sure { LooksSurely (told self.now) (sure self.now) result };

    /// Opens a file at its start.
    fn open(&self, name: &str) -> io::Result<Self::File>
        ensures bytes { IfSome (told self.now) (λ files. IfOk result (λ file.
            Self.File.bytes file ≡ Some (file_bytes files name.now))) }
        ensures sure { IsTrue (sure self.now) → IfSome (told self.now) (λ files.
            get files name.now ≢ None → IsOk result × IfOk result (λ file. IsTrue (Self.File.sure file))) };
}

/// The current folder, read through the runtime: it tells nothing.
#[derive(Drop)]
pub struct HostFolder<R> {
    files: R,
}

impl<R: Files> Folder for HostFolder<R> {
    type File = HostFile<R::File>;

    ghost told = { λ _. None };

    ghost sure = { λ _. false };

    fn look(&self, name: &str) -> io::Result<Entry> {
        match fs::metadata(&self.files, name) {
            Ok(data) if data.is_file() => Ok(Entry::Regular(data.len())),
            Ok(_) => Ok(Entry::Other),
            Err(error) if error.kind() == ErrorKind::NotFound => Ok(Entry::Absent),
            Err(error) => Err(error),
        }
    }

    fn open(&self, name: &str) -> io::Result<HostFile<R::File>> {
        let file = fs::open(&self.files, name)?;
        Ok(HostFile { file })
    }
}

/// A file of the system that is read: it tells nothing.
#[derive(Drop)]
pub struct HostFile<F> {
    file: F,
}

impl<F: Read + Seek> Placed for HostFile<F> {
    ghost bytes = { λ _. None };

    ghost sure = { λ _. false };

    fn read_at(&mut self, at: u64, into: &mut [u8]) -> io::Result<usize> {
        self.file.seek(SeekFrom::Start(at))?;
        self.file.read(into)
    }
}

/// The files of a folder: a store that tells the files that the folder tells, which are none for the folder
/// of the system. An absent file has no size and no bytes. A name that is no regular file,
/// or that can't be looked up or opened, is a fault at once. What has the name is looked at before it is
/// opened, so that no call waits for a writer.
#[derive(Drop)]
pub struct FolderStore<F> {
    folder: F,
    faults: u64,
}

impl<R: Files> FolderStore<HostFolder<R>> {
    /// A store over the current folder, with no fault counted.
    pub fn new(files: R) -> FolderStore<HostFolder<R>>
        ensures { folder_store (λ _. None) (λ _. false) result
            ≡ record { told = None; faults = 0; sure = false } }
    {
        FolderStore::over(HostFolder { files })
    }
}

impl<F: Folder> FolderStore<F> {
    /// A store over a folder, with no fault counted.
    pub fn over(folder: F) -> FolderStore<F>
        ensures { folder_store F.told F.sure result
            ≡ record { told = F.told folder; faults = 0; sure = F.sure folder } }
    {
        FolderStore { folder, faults: 0 }
    }
}

impl<F: Folder> Store for FolderStore<F> {
    ghost state = { folder_store F.told F.sure };

    ghost gives = { tells_by (folder_store F.told F.sure) };

    /// The size of the file; None where it is absent.
    fn size(&mut self, name: &str) -> Result<Option<u64>, Failed> {
        // No effect at run time. The proof reads the range of the count from it.
        let _count = self.faults;
        match file_size(&self.folder, name) {
            Ok(size) => Ok(size),
            Err(_) => Err(count_fault(&mut self.faults)),
        }
    }

    /// Opens the file anew in each call, so nothing is kept between two of them.
    fn read(&mut self, name: &str, at: u64, into: &mut [u8]) -> Result<usize, Failed> {
        // No effect at run time. The proof reads the range of the count from it.
        let _count = self.faults;
        match read_part(&self.folder, name, at, into) {
            Ok(count) => Ok(count),
            Err(_) => Err(count_fault(&mut self.faults)),
        }
    }

    ghost tells = { λ s answer t step. step };
}

// The size of a file, None where it is absent. Anything else than a regular file is an error.
fn file_size<F: Folder>(folder: &F, name: &str) -> io::Result<Option<u64>>
    ensures told { IfSome (F.told folder.now)
        (λ files. IfOk result (λ size. size ≡ option_map length (get files name.now))) }
    ensures sure { IsTrue (F.sure folder.now) → IsOk result }
{
    match folder.look(name)? {
        Entry::Absent => Ok(None),
        Entry::Regular(size) => Ok(Some(size)),
        Entry::Other => Err(io::Error::from(ErrorKind::InvalidInput)),
    }
}

// One read of a file from place `at` on. An absent one has no bytes.
fn read_part<F: Folder>(folder: &F, name: &str, at: u64, into: &mut [u8]) -> io::Result<usize>
    ensures bound { IfOk result (λ k. k ≤ length into.new) }
    ensures part { IfSome (F.told folder.now) (λ files. IfOk result (λ k.
        IsPart (file_bytes files name.now) at (length into.new) (take k into.new))) }
    ensures sure { IsTrue (F.sure folder.now) → IsOk result }
{
    match folder.look(name)? {
        Entry::Absent => Ok(0),
        Entry::Regular(_) => folder.open(name)?.read_at(at, into),
        Entry::Other => Err(io::Error::from(ErrorKind::InvalidInput)),
    }
}
