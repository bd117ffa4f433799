//! Something that one hears bytes from and says bytes to.
ghost use Rattle.std.specs.Prelude.{◌≡◌, ◌≤◌, ℕ, List, length, take, None};
ghost use Rattle.mx_io.specs.Real.{stdout_sink};
ghost use Rattle.mx_packets.specs.Lines.{Utters, hears_over, says_over};

use mx_io::{Failed, StdoutSink, Stream, put_all};
use std::io::Read;

/// A line to someone who asks: the order of what is heard and what is said is kept.
pub trait Line {
    /// How many more bytes are sure to be said.
    ghost room: { Self → ℕ };

    /// A step of the line: this piece was heard, and nothing was said. Nothing else makes one.
    ghost hears: { Self → List ℕ → Self → Type 0 };

    /// A step of the line: these bytes were said, and nothing was heard. Nothing else makes one.
    ghost says: { Self → List ℕ → Self → Type 0 };

    /// Hears a piece, puts it at the start of `into` and tells its length: at least one byte, or none where nothing is
    /// heard any more.
    fn hear(&mut self, into: &mut [u8]) -> usize
        ensures heard { hears self.old (take result into.new) self.new }
        ensures bound { result ≤ length into.new }
        ensures room { room self.new ≡ room self.old };

    /// Says bytes, all of them or, where the line fails, a prefix of them that lacks some.
    fn say(&mut self, bytes: &[u8]) -> Result<(), Failed>
        ensures { Utters says room self.old bytes.now self.new result };
}

/// Standard input and output, or others in their place: a line that tells what these tell.
#[derive(Drop)]
pub struct StdLine<I, O> {
    input: I,
    out: StdoutSink<O>,
}

impl<I: Read, O: Stream> StdLine<I, O> {
    /// A line over an input and an output.
    pub fn over(input: I, out: StdoutSink<O>) -> StdLine<I, O>
        ensures input { result.input ≡ input }
        ensures out { result.out ≡ out }
    {
        StdLine { input, out }
    }
}

impl<I: Read, O: Stream> Line for StdLine<I, O> {
    ghost room = { λ l. (stdout_sink O.contents O.room l.out).room };

    ghost hears = { hears_over I.remaining };

    ghost says = { says_over O.contents O.room };

    fn hear(&mut self, into: &mut [u8]) -> usize {
        match self.input.read(into) {
            Ok(count) => count,
            Err(_) => 0,
        }
    }

    fn say(&mut self, bytes: &[u8]) -> Result<(), Failed> {
        put_all(&mut self.out, bytes)
    }
}
