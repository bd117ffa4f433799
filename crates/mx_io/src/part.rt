//! Copies of parts of files.
ghost use Rattle.mx_io.specs.Store.{CopiesPart};

/// Copies the bytes from place `at` on to the start of `into`, as many as stand there and fit, and tells how many.
pub(crate) fn copy_part(bytes: &[u8], at: u64, into: &mut [u8]) -> usize
    ensures { CopiesPart bytes.now at into.old into.new result }
{
    if at >= bytes.len() as u64 {
        return 0;
    }
    let rest = &bytes[at as usize..];
    let count = rest.len().min(into.len());
    into[..count].copy_from_slice(&rest[..count]);
    count
}
