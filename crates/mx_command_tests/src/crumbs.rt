//! Stores and sinks that move few bytes in a call.

ghost use Rattle.std.specs.Prelude.{◌<◌, ◌≤◌};
ghost use Rattle.mx_io.specs.Answer.{tells_by};
ghost use Rattle.mx_command_tests.specs.Crumbs.{crumb_store, crumb_sink};

use mx_io::{Failed, Sink, Store};

/// A store or a sink over the one in it: each call goes to that one, and moves at most `most` bytes, but one where
/// `most` is 0.
#[derive(Drop)]
pub struct Crumbs<T> {
    /// What is called.
    pub inner: T,
    /// How many bytes a call moves at most.
    pub most: usize,
}

/// How many of so many bytes are moved.
fn part(most: usize, all: usize) -> usize
    ensures some { 0 < all → 0 < result }
    ensures within { result ≤ all }
{
    all.min(most.max(1))
}

impl<S: Store> Store for Crumbs<S> {
    ghost state = { crumb_store S.state };

    ghost gives = { tells_by (crumb_store S.state) };

    fn size(&mut self, name: &str) -> Result<Option<u64>, Failed> {
        self.inner.size(name)
    }

    fn read(&mut self, name: &str, at: u64, into: &mut [u8]) -> Result<usize, Failed> {
        let count = part(self.most, into.len());
        self.inner.read(name, at, &mut into[..count])
    }

    ghost tells = { λ s answer t step. step };
}

impl<S: Sink> Sink for Crumbs<S> {
    ghost state = { crumb_sink S.state };

    fn write(&mut self, bytes: &[u8]) -> Result<usize, Failed> {
        let count = part(self.most, bytes.len());
        self.inner.write(&bytes[..count])
    }
}
