//! What the sinks of the system write to, and the standard streams.
ghost use Rattle.std.specs.Prelude.{◌≡◌, ◌-◌, ℕ, None, Some, List, Option, vec_len, vec_capacity};
ghost use Rattle.std.specs.Io.{WritesAtMost};
ghost use Rattle.std.specs.Io.KnownBytes.{WriteAppends};
ghost use Rattle.mx_io.specs.Bytes.{bytes_sink};
ghost use Rattle.mx_io.specs.Real.{TakesSurely, stream, stdout_sink, stderr_sink};

use crate::faults::write_some;
use crate::{Bytes, Failed, Sink};
use std::io;
use std::io::{ErrorKind, Write};
use std::rt::{Stderr, Stdout};

/// Something that takes bytes, one after another, and may fail.
pub trait Stream {
    /// The bytes that it holds, where it tells them.
    ghost contents: { Self → Option (List ℕ) };

    /// How many more bytes it is sure to take.
    ghost room: { Self → ℕ };

    /// Takes the first of these bytes, and says how many; at an error none.
    fn take(&mut self, bytes: &[u8]) -> io::Result<usize>
        ensures bound { WritesAtMost result bytes.now }
        ensures appends { WriteAppends (contents self.old) (contents self.new) result bytes.now }
        ensures sure { TakesSurely (room self.old) (room self.new) bytes.now result };
}

/// A writer, as one that tells nothing and is sure of nothing.
#[derive(Drop)]
pub struct Untold<W> {
    writer: W,
}

impl<W> Untold<W> {
    /// Over this writer.
    pub(crate) fn new(writer: W) -> Untold<W> {
        Untold { writer }
    }
}

impl<W: Write> Stream for Untold<W> {
    ghost contents = { λ _. None };

    ghost room = { λ _. 0 };

    fn take(&mut self, bytes: &[u8]) -> io::Result<usize> {
        self.writer.write(bytes)
    }
}

/// A vector tells its bytes, and is sure to take as many more as it has memory for.
impl Stream for Vec<u8> {
    ghost contents = { λ v. Some v.items };

    ghost room = { λ v. vec_capacity v - vec_len v };

    fn take(&mut self, bytes: &[u8]) -> io::Result<usize> {
        self.extend_from_slice(bytes)?;
        Ok(bytes.len())
    }
}

/// Bytes in memory, as a stream: it tells them, and is sure of what they are sure of.
impl Stream for Bytes {
    ghost contents = { λ b. Some b.written };

    ghost room = { λ b. (bytes_sink b).room };

    fn take(&mut self, bytes: &[u8]) -> io::Result<usize> {
        match self.write(bytes) {
            Ok(taken) => Ok(taken),
            Err(Failed) => Err(io::Error::from(ErrorKind::Other)),
        }
    }
}

impl<S: Stream> Stream for &mut S {
    ghost contents = { λ s. S.contents s.now };

    ghost room = { λ s. S.room s.now };

    fn take(&mut self, bytes: &[u8]) -> io::Result<usize> {
        Stream::take(&mut **self, bytes)
    }
}

/// Standard output, or another stream in its place: a sink that tells what the stream tells, which is nothing for
/// that of the system. Each error counts a fault, and so does a write that takes nothing.
#[derive(Drop)]
pub struct StdoutSink<W> {
    out: W,
    faults: u64,
}

impl StdoutSink<Untold<Stdout>> {
    /// A sink over the runtime's standard output, with no fault counted.
    pub fn new(out: Stdout) -> StdoutSink<Untold<Stdout>>
        ensures { stdout_sink (λ _. None) (λ _. 0) result ≡ stream None 0 0 }
    {
        StdoutSink::over(Untold::new(out))
    }
}

impl<W: Stream> StdoutSink<W> {
    /// A sink over a stream, with no fault counted.
    pub fn over(out: W) -> StdoutSink<W>
        ensures { stdout_sink W.contents W.room result ≡ stream (W.contents out) (W.room out) 0 }
    {
        StdoutSink { out, faults: 0 }
    }
}

impl<W: Stream> Sink for StdoutSink<W> {
    ghost state = { stdout_sink W.contents W.room };

    fn write(&mut self, bytes: &[u8]) -> Result<usize, Failed> {
        write_some(&mut self.out, &mut self.faults, bytes)
    }
}

/// Standard error, or another stream in its place: a sink that tells what the stream tells, which is nothing for
/// that of the system. Each error counts a fault, and so does a write that takes nothing.
#[derive(Drop)]
pub struct StderrSink<W> {
    out: W,
    faults: u64,
}

impl StderrSink<Untold<Stderr>> {
    /// A sink over the runtime's standard error, with no fault counted.
    pub fn new(out: Stderr) -> StderrSink<Untold<Stderr>>
        ensures { stderr_sink (λ _. None) (λ _. 0) result ≡ stream None 0 0 }
    {
        StderrSink::over(Untold::new(out))
    }
}

impl<W: Stream> StderrSink<W> {
    /// A sink over a stream, with no fault counted.
    pub fn over(out: W) -> StderrSink<W>
        ensures { stderr_sink W.contents W.room result ≡ stream (W.contents out) (W.room out) 0 }
    {
        StderrSink { out, faults: 0 }
    }
}

impl<W: Stream> Sink for StderrSink<W> {
    ghost state = { stderr_sink W.contents W.room };

    fn write(&mut self, bytes: &[u8]) -> Result<usize, Failed> {
        write_some(&mut self.out, &mut self.faults, bytes)
    }
}
