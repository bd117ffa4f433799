//! A list of spans.
ghost use Rattle.std.specs.Prelude.{◌≡◌, ◌<◌, ◌≤◌, ◌^◌, ◌++◌, [], ◌∷◌, List, length, OnOk, OnErr, slice_get};
ghost use Rattle.mx_words.specs.declared.perm.Span.{Span};

use crate::{NoMemory, Span};
use std::alloc::Global;
use std::marker::Model;

/// A list of spans of RAM words, in the order in which they were pushed.
#[derive(Drop)]
pub struct Spans {
    items: Vec<Span>,
}

impl Model for Spans {
    ghost Value = { List Span };

    ghost view = { λ s. s.items.items };

    ghost invariant = { λ s. length s.items.items ≤ 2 ^ 31 };
}

impl Spans {
    /// An empty list.
    pub fn new(alloc: Global) -> Spans
        ensures { result ≡ [] }
    {
        Spans {
            items: Vec::new(alloc),
        }
    }

    /// Appends a span. The list holds fewer than 2^31 spans. Where memory is refused, it stays as it was.
    pub fn push(&mut self, item: Span) -> Result<(), NoMemory>
        requires { length self.old < 2 ^ 31 }
        ensures ok { OnOk result (self.new ≡ self.old ++ item ∷ []) }
        ensures err { OnErr result (self.new ≡ self.old) }
    {
        self.items.push(item)?;
        Ok(())
    }

    /// The number of spans.
    pub fn len(&self) -> u32
        ensures { result ≡ length self.now }
    {
        self.items.len() as u32
    }

    /// The span at place `i`, counted from 0 and below `len`.
    pub fn get(&self, i: u32) -> Span
        requires { i < length self.now }
        ensures { slice_get self.now i ≡ Some result }
    {
        self.items[i as usize]
    }
}
