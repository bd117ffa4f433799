//! A buffer before a sink.
ghost use Rattle.std.specs.Prelude.{◌≡◌, ◌<◌, [], ◌∷◌, length, OnOk};
ghost use Rattle.mx_io.specs.Sink.{Puts};
ghost use Rattle.mx_tail.specs.Tail.{Adds, piece_bytes};

use arrayvec::ArrayVec;
use mx_io::{Failed, Sink, put_all};
use mx_model::Events;
use std::marker::Model;

/// How many bytes leave at once.
const PIECE: usize = 4096;

/// The bytes that were added and haven't left for the sink yet: fewer than 4096. It is used before one sink, and no
/// more after a call
/// that failed.
#[derive(Drop)]
pub struct Tail {
    bytes: ArrayVec<u8, PIECE>,
}

impl Model for Tail {
    ghost use Rattle.std.specs.Prelude.{ℕ, List, length, ◌<◌};
    ghost use Rattle.mx_tail.specs.Tail.{piece_bytes};

    ghost Value = { List ℕ };

    ghost view = { λ t. t.bytes.items };

    ghost invariant = { λ t. length t.bytes.items < piece_bytes };
}

impl Tail {
    /// Nothing is held.
    pub fn new() -> Tail
        ensures { result ≡ [] }
    {
        Tail {
            bytes: ArrayVec::new(),
        }
    }

    /// Adds the console bytes of a turn. Pieces of 4096 bytes leave for the sink, and what is after them is held.
    pub fn add<C: Sink>(&mut self, sink: &mut C, bytes: &Events) -> Result<(), Failed>
        ensures adds { Adds self.old (C.state sink.old) (C.state sink.new) self.new
            bytes.now.bytes result }
        ensures few { length self.new < piece_bytes }
    {
        // No effect at run time. The proof reads from it that fewer than 4096 bytes are held.
        let _ = &self.bytes;
        for i in 0..bytes.len() {
            self.push(sink, bytes.byte(i))?;
        }
        Ok(())
    }

    /// How many bytes are held.
    pub(crate) fn len(&self) -> usize
        ensures count { result ≡ length self.now }
        ensures few { length self.now < piece_bytes }
    {
        self.bytes.len()
    }

    /// Puts what is held on the sink. Nothing is held any more.
    pub fn end<C: Sink>(&mut self, sink: &mut C) -> Result<(), Failed>
        ensures puts { Puts (C.state sink.old) (C.state sink.new) self.old result }
        ensures empty { self.new ≡ [] }
    {
        let ended = put_all(sink, self.bytes.as_slice());
        self.bytes.clear();
        ended
    }

    /// Adds bytes, as `add`.
    pub fn put<C: Sink>(&mut self, sink: &mut C, bytes: &[u8]) -> Result<(), Failed>
        ensures adds { Adds self.old (C.state sink.old) (C.state sink.new) self.new
            bytes.now result }
        ensures few { length self.new < piece_bytes }
    {
        if bytes.len() < PIECE - self.bytes.len() {
            // They fit.
            let _ = self.bytes.try_extend_from_slice(bytes);
            return Ok(());
        }
        self.put_each(sink, bytes)
    }

    // Adds bytes one after another.
    #[cold]
    fn put_each<C: Sink>(&mut self, sink: &mut C, bytes: &[u8]) -> Result<(), Failed>
        ensures adds { Adds self.old (C.state sink.old) (C.state sink.new) self.new
            bytes.now result }
        ensures few { length self.new < piece_bytes }
    {
        // No effect at run time. The proof reads from it that fewer than 4096 bytes are held.
        let _ = &self.bytes;
        for byte in bytes {
            self.push(sink, *byte)?;
        }
        Ok(())
    }

    fn push<C: Sink>(&mut self, sink: &mut C, byte: u8) -> Result<(), Failed>
        ensures adds { Adds self.old (C.state sink.old) (C.state sink.new) self.new
            (byte ∷ []) result }
        ensures few { length self.new < piece_bytes }
    {
        self.bytes.push(byte);
        if self.bytes.len() < PIECE {
            return Ok(());
        }
        let result = put_all(sink, self.bytes.as_slice());
        self.bytes.clear();
        result
    }
}
