//! Bytes in memory that are written to.
ghost use Rattle.std.specs.Prelude.{◌≡◌, ◌↔◌, ◌==◌, ◌||◌, ◌&&◌, nat_lt, length, IsErr, IsTrue, IfOk};
ghost use Rattle.mx_io.specs.Sink.{Writes};
ghost use Rattle.mx_io.specs.Bytes.{no_bytes, with_refusing, refuses, takes, after_write, bytes_sink};

use crate::calls::Calls;
use crate::{Failed, Sink};
use mx_words::NoMemory;
use std::alloc::Global;
use std::marker::Model;

/// Bytes in memory: a sink that tells its bytes. Its room is fixed when it is made, and calls of it can be
/// made to fail by their numbers.
#[derive(Drop)]
pub struct Bytes {
    written: Vec<u8>,
    room: u64,
    calls: Calls,
    faults: u64,
}

impl Model for Bytes {
    ghost use Rattle.std.specs.Prelude.{◌+◌, ◌≤◌, ◌<◌, ◌^◌, vec_len, vec_capacity};
    ghost use Rattle.mx_io.specs.Bytes.{BytesState};

    ghost Value = { BytesState };

    ghost view = { λ b.
        record { written = b.written.items; room = b.room; faults = b.faults; calls = b.calls } };

    ghost invariant = { λ b. record {
      fits : vec_len b.written + b.room ≤ vec_capacity b.written;
      counted : b.faults < 2 ^ 64;
    } };
}

impl Bytes {
    /// A sink with room for so many bytes, with nothing written, no fault counted and no call made or
    /// listed. It takes all its memory here.
    pub fn new(alloc: Global, room: u64) -> Result<Bytes, NoMemory>
        ensures { IfOk result (λ bytes. bytes ≡ no_bytes room) }
    {
        let written = Vec::with_capacity(alloc, room as usize)?;
        Ok(Bytes {
            written,
            room,
            calls: Calls::new(),
            faults: 0,
        })
    }

    /// Lists the number of a call that is to fail. Calls of `write` are counted from 1. Eight numbers are
    /// held, and a ninth is ignored. Calls after the first 2^64 - 1 have no number.
    pub fn fail_at(&mut self, call: u64)
        ensures { self.new ≡ with_refusing self.old call }
    {
        self.calls.fail_at(call);
    }

    /// All bytes written, in order.
    pub fn as_slice(&self) -> &[u8]
        ensures { result.now ≡ self.now.written }
    {
        self.written.as_slice()
    }
}

impl Sink for Bytes {
    ghost state = { bytes_sink };

    /// Fails exactly where the call is listed, and where there are bytes and no room is left, and then
    /// counts one fault. Else takes as many bytes as fit.
    fn write(&mut self, bytes: &[u8]) -> Result<usize, Failed>
        ensures writes { Writes (bytes_sink self.old) (bytes_sink self.new) bytes.now result }
        ensures after { self.new ≡ after_write self.old bytes.now }
        ensures fails { IsErr result ↔ IsTrue (refuses self.old bytes.now) }
        ensures taken { IfOk result (λ k. k ≡ takes self.old bytes.now) }
    {
        let listed = self.calls.next();
        if is_refused(listed, self.room, bytes) {
            self.faults = self.faults.saturating_add(1);
            return Err(Failed);
        }
        let taken = bytes.len().min(self.room as usize);
        let _ = self.written.extend_from_slice(&bytes[..taken]);
        self.room -= taken as u64;
        Ok(taken)
    }
}

// Whether a write fails: its call is listed, or it has bytes and no room is left.
fn is_refused(listed: bool, room: u64, bytes: &[u8]) -> bool
    ensures { result ≡ (listed || (room == 0 && nat_lt 0 (length bytes.now))) }
{
    listed || room == 0 && !bytes.is_empty()
}
