//! What the loader answers, over texts of manifests and bytes of images. Expected values are written by hand from the
//! rules.

use mx_boot::{Layout, LayoutRefused, lay_out};
use mx_manifest::{BootFault, Key, Part, Place, read_manifest};
use mx_words::{Blob, NoMemory};
use std::alloc::Global;
use std::test::Fail;

pub(crate) mod accepted;
mod faults;
mod image;

/// The file of a module.
#[derive(Clone, Copy)]
pub(crate) enum File {
    /// None, of an inline module.
    None,
    /// So many zero bytes.
    Zeros(u32),
    /// The front of an image, whose two program headers pass its end.
    Headers,
    /// The image of `image::IMAGE`.
    Image,
    /// The image with another byte at a place.
    Changed(u32, u8),
}

/// A list of bytes.
fn blob(alloc: Global, bytes: &[u8]) -> Result<Blob, NoMemory> {
    let mut blob = Blob::new(alloc);
    for byte in bytes {
        if blob.len() < 4096 {
            blob.push(*byte)?;
        }
    }
    Ok(blob)
}

/// So many zero bytes, at most 4096.
fn zeros(alloc: Global, count: u32) -> Result<Blob, NoMemory> {
    let mut blob = Blob::new(alloc);
    for _ in 0..count {
        if blob.len() < 4096 {
            blob.push(0)?;
        }
    }
    Ok(blob)
}

/// The image with another byte at a place.
fn changed(alloc: Global, at: u32, byte: u8) -> Result<Blob, NoMemory> {
    let mut bytes = image::IMAGE;
    if let Some(place) = bytes.get_mut(at as usize) {
        *place = byte;
    }
    blob(alloc, &bytes)
}

/// The first 100 bytes of the image, whose header tells two program headers at 52.
fn headers(alloc: Global) -> Result<Blob, NoMemory> {
    let mut bytes = image::IMAGE;
    bytes[44] = 2;
    blob(alloc, &bytes[..100])
}

fn blob_of(alloc: Global, file: File) -> Result<Blob, NoMemory> {
    match file {
        File::None => Ok(Blob::new(alloc)),
        File::Zeros(count) => zeros(alloc, count),
        File::Headers => headers(alloc),
        File::Image => blob(alloc, &image::IMAGE),
        File::Changed(at, byte) => changed(alloc, at, byte),
    }
}

/// The files of modules.
pub(crate) fn blobs_of(alloc: Global, files: &[File]) -> Result<Vec<Blob>, NoMemory> {
    let mut blobs = Vec::new(alloc);
    for each in files {
        let blob = blob_of(alloc, *each)?;
        blobs.push(blob)?;
    }
    Ok(blobs)
}

/// What the text of a manifest gives with these files; `NoMemory` also where it has no plan.
pub(crate) fn judge(alloc: Global, text: &str, images: &[File]) -> Result<Layout, LayoutRefused> {
    let Ok(table) = toml::table_from_str(alloc, text) else {
        return Err(LayoutRefused::NoMemory);
    };
    let Ok(plan) = read_manifest(alloc, &table) else {
        return Err(LayoutRefused::NoMemory);
    };
    match blobs_of(alloc, images) {
        Ok(blobs) => lay_out(alloc, &plan, blobs.as_slice()),
        Err(_) => Err(LayoutRefused::NoMemory),
    }
}

/// A manifest of version 2 with 64 KiB of RAM.
pub(crate) fn manifest(alloc: Global, modules: &str, harts: &str) -> Result<String, Fail> {
    Ok(format!(in alloc; "version = 2\nram_kib = 64\n{modules}{harts}")?)
}

/// The answer that tells a fault.
pub(crate) fn refused(
    number: u32,
    part: Part,
    index: u32,
    key: Key,
    detail: u32,
) -> Option<LayoutRefused> {
    Some(LayoutRefused::Fault(BootFault {
        number,
        place: Place { part, index, key },
        detail,
    }))
}
