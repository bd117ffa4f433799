//! The files of a plan's modules, each read once.

ghost use Rattle.std.specs.Prelude.{◌≡◌, ◌++◌, [], ◌∷◌, All, length, slice_index_or, IfOk, OnOk};
ghost use Rattle.mx_elf.specs.Image.{IsSound, image_of};

use mx_elf::{Image, ImageFault, read_image};
use mx_words::{Blob, NoMemory};
use std::alloc::Global;
use std::marker::Model;

/// The bytes of a module's file, with what they are read as. An inline module has a file of no bytes.
#[derive(Drop)]
pub(crate) struct ModuleFile<'a> {
    bytes: &'a [u8],
    image: Result<Image, ImageFault>,
}

impl<'a> Model for ModuleFile<'a> {
    ghost use Rattle.std.specs.Prelude.{◌≡◌, ℕ, List, All, length, IfOk};
    ghost use Rattle.mx_elf.specs.Image.{IsSound, image_of};

    ghost Value = { List ℕ };

    ghost view = { λ f. f.bytes.now };

    ghost invariant = { λ f. (f.image ≡ image_of f.bytes.now)
        × IfOk f.image (λ image. All (IsSound (length f.bytes.now)) image.segments) };
}

impl<'a> ModuleFile<'a> {
    /// Reads a file.
    fn read(bytes: &'a [u8]) -> ModuleFile<'a>
        ensures { result ≡ bytes.now }
    {
        ModuleFile {
            bytes,
            image: read_image(bytes),
        }
    }

    /// Its bytes.
    pub(crate) fn bytes(&self) -> &'a [u8]
        ensures { result.now ≡ self.now }
    {
        self.bytes
    }

    /// The image that it is, or the first of its faults.
    pub(crate) fn image(&self) -> &Result<Image, ImageFault>
        ensures exact { result.now ≡ image_of self.now }
        ensures sound { IfOk result.now (λ image. All (IsSound (length self.now)) image.segments) }
    {
        &self.image
    }
}

/// The files of all modules.
#[derive(Drop)]
pub(crate) struct Images<'a> {
    files: Vec<ModuleFile<'a>>,
    // The file of no bytes, for a module without one.
    none: ModuleFile<'a>,
}

impl<'a> Model for Images<'a> {
    ghost use Rattle.std.specs.Prelude.{◌≡◌, ℕ, List, []};

    ghost Value = { List (List ℕ) };

    ghost view = { λ i. i.files.items };

    ghost invariant = { λ i. i.none ≡ [] };
}

/// Adds a file.
fn add<'a>(files: &mut Vec<ModuleFile<'a>>, file: ModuleFile<'a>) -> Result<(), NoMemory>
    ensures { OnOk result (files.new.items ≡ files.old.items ++ file.entry ∷ []) }
{
    files.push(file)?;
    Ok(())
}

impl<'a> Images<'a> {
    /// Reads each file once.
    pub(crate) fn read(alloc: Global, images: &'a [Blob]) -> Result<Images<'a>, NoMemory>
        ensures { IfOk result (λ read. read ≡ images.now) }
    {
        let mut files = Vec::new(alloc);
        'files: for image in images {
            add(&mut files, ModuleFile::read(image.as_slice()))?;
        }
        Ok(Images {
            files,
            none: ModuleFile::read(&[]),
        })
    }

    /// The file of the module at a place, which counts from 0; that of no bytes where there is none.
    pub(crate) fn file(&self, i: u32) -> &ModuleFile<'a>
        ensures { result.now ≡ slice_index_or self.now i [] }
    {
        if let Some(file) = self.files.as_slice().get(i as usize) {
            return file;
        }
        &self.none
    }
}
