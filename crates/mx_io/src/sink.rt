//! The trait of the sinks.
ghost use Rattle.std.specs.Prelude.{◌<◌, length, drop};
ghost use Rattle.mx_io.specs.Sink.{SinkState, Writes, Puts};

use crate::Failed;

/// Something that bytes are written to, one after another.
pub trait Sink {
    /// What the sink says of itself: the bytes written where it tells them, its count of faults, and how
    /// many more bytes it is sure to take.
    ghost state: { Self → SinkState };

    /// Appends the first k bytes of a piece with bytes and tells k: at least 1, and at most the length of the
    /// piece. The count of faults is then as before. Fails only where the count rose in this call, and has
    /// then appended nothing.
    fn write(&mut self, bytes: &[u8]) -> Result<usize, Failed>
        requires { 0 < length bytes.now }
        ensures { Writes (state self.old) (state self.new) bytes.now result };
}

/// Puts bytes on a sink, all of them or, where a write fails, a prefix of them that lacks some. Each write
/// takes at least one byte, so there are at most as many writes as bytes.
pub fn put_all<S: Sink>(sink: &mut S, bytes: &[u8]) -> Result<(), Failed>
    ensures { Puts (S.state sink.old) (S.state sink.new) bytes.now result }
{
    let mut done = 0;
    'parts: while done < bytes.len() {
        done += write_from(sink, bytes, done)?;
    }
    Ok(())
}

// One write of the bytes from place `at` on.
fn write_from<S: Sink>(sink: &mut S, bytes: &[u8], at: usize) -> Result<usize, Failed>
    requires { at < length bytes.now }
    ensures { Writes (S.state sink.old) (S.state sink.new) (drop at bytes.now) result }
{
    sink.write(&bytes[at..])
}
