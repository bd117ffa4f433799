//! Counts of faults of the stores and sinks of the system.
ghost use Rattle.std.specs.Prelude.{◌≡◌, ◌<◌, ◌^◌, length};
ghost use Rattle.mx_io.specs.Count.{raised};
ghost use Rattle.mx_io.specs.Sink.{Writes};
ghost use Rattle.mx_io.specs.Real.{stream};

use crate::{Failed, Stream};

/// Counts one fault, up to 2^64 - 1, for a call that fails.
pub(crate) fn count_fault(faults: &mut u64) -> Failed
    ensures counts { faults.new ≡ raised faults.old }
    ensures counted { faults.old < 2 ^ 64 }
{
    *faults = faults.saturating_add(1);
    Failed
}

/// One write of a piece with bytes to a writer. An error counts a fault, and so does a write that takes
/// nothing.
pub(crate) fn write_some<W: Stream>(
    out: &mut W,
    faults: &mut u64,
    bytes: &[u8],
) -> Result<usize, Failed>
    requires { 0 < length bytes.now }
    ensures { Writes (stream (W.contents out.old) (W.room out.old) faults.old)
        (stream (W.contents out.new) (W.room out.new) faults.new) bytes.now result }
{
    // No effect at run time. The proof reads the range of the count from it.
    let _count = *faults;
    match out.take(bytes) {
        Ok(0) => Err(count_fault(faults)),
        Ok(taken) => Ok(taken),
        Err(_) => Err(count_fault(faults)),
    }
}
