//! The reading of a whole file from a store.

ghost use Rattle.std.specs.Prelude.{◌≡◌, ◌≤◌, length, IfOk, vec_len};
ghost use Rattle.mx_commands.specs.Reading.{ReadsFile, ReadsTold, TakesPart};

use mx_io::{Failed, Store};
use std::alloc::Global;

/// Why a file could not be read.
#[derive(Clone, Copy, PartialEq, Eq)]
pub(crate) enum ReadFault {
    /// There is no file of that name.
    Absent,
    /// Its size is over the limit.
    Large,
    /// It ended after `got` bytes, before the size told.
    Short(u64, u64),
    /// A call of the store failed.
    Broken,
    /// An allocation was refused.
    NoMemory,
}

/// The bytes of a file of at most `most` bytes, just as many as its size told. The size is asked once, then
/// each call of the store asks for all that is missing and takes at least one byte.
#[tactic(auto, using(crate::proofs::Sizes::reads_absent, crate::proofs::Sizes::reads_broken))]
pub(crate) fn read_file<S: Store>(
    alloc: Global,
    store: &mut S,
    name: &str,
    most: u64,
) -> Result<Vec<u8>, ReadFault>
    ensures found { ReadsFile S.gives most name.now store.old store.new result }
    ensures fits { IfOk result (λ bytes. vec_len bytes ≤ most) }
{
    match store.size(name) {
        Ok(Some(told)) => {
            if told <= most {
                read_told(alloc, store, name, told)
            } else {
                Err(ReadFault::Large)
            }
        }
        Ok(None) => Err(ReadFault::Absent),
        Err(Failed) => Err(ReadFault::Broken),
    }
}

/// The bytes of a file for which this size was told.
#[tactic(auto, using(crate::proofs::Parts::came_none))]
fn read_told<S: Store>(
    alloc: Global,
    store: &mut S,
    name: &str,
    told: u64,
) -> Result<Vec<u8>, ReadFault>
    ensures found { ReadsTold S.gives told name.now store.old store.new result }
    ensures size { IfOk result (λ bytes. vec_len bytes ≡ told) }
{
    let size = told as usize;
    let Ok(mut bytes) = vec![in alloc; 0; size] else {
        return Err(ReadFault::NoMemory);
    };
    let mut got = 0;
    'parts: while got < size {
        match read_part(store, name, &mut bytes, got) {
            Ok(0) => return Err(ReadFault::Short(told, got as u64)),
            Ok(count) => got += count,
            Err(Failed) => return Err(ReadFault::Broken),
        }
    }
    Ok(bytes)
}

/// Puts bytes of a file from place `at` on at that place of `bytes` and tells how many.
fn read_part<S: Store>(
    store: &mut S,
    name: &str,
    bytes: &mut [u8],
    at: usize,
) -> Result<usize, Failed>
    requires { at ≤ length bytes.old }
    ensures { TakesPart S.gives name.now at store.old store.new bytes.old bytes.new result }
{
    store.read(name, at as u64, &mut bytes[at..])
}
